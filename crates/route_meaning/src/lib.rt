// The vocabulary of a route file (02, Item 7).
#![tactic(auto)]

// What a field of a line of the route file means.
#[derive(Clone, Copy)]
pub enum RouteField {
    Route,
    StartSignal,
    SectionCount,
    TurnoutCount,
    Section,
    Turnout,
    State,
}
