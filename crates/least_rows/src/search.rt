use bar_view::View;
use grammar_plan::Plan;
use rhythm_base::{BarInput, Grammar};

/// What is searched: a bar, by the plan of its grammar and its view.
#[derive(Clone, Copy)]
pub struct Search<'a> {
    pub grammar: &'a Grammar,
    pub plan: &'a Plan,
    pub input: &'a BarInput,
    pub view: &'a View,
}
