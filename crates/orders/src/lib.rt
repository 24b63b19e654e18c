// What an order says by itself: whether it needs remote mode and whether its value is in range (values), and what a start or
// a setting means for the motor that it names (settings). What each of these is stands in specs/.

#![tactic(auto)]

pub mod settings;
pub mod values;
