// Which stage a state counts as: one that breaks the heading's rules counts as nothing (document 01, section 2).
ghost use Rattle.std.specs.Prelude.{◌≡◌, not};
ghost use Rattle.table.specs.State.{good_heading, order_of, stage_of, is_nothing, is_network};

use crate::order::is_order;
use crate::{Stage, State};
use diagram::{OUTPUTS, VARIABLES};

impl State {
    // Whether n, m and the first n entries of the order keep the heading's rules.
    #[tactic(auto, unfolding(crate::specs::State::good_heading))]
    pub fn good_heading(self) -> bool
        ensures { result ≡ good_heading self.n self.m (order_of self) }
    {
        self.n <= VARIABLES && (1..=OUTPUTS).contains(&self.m) && is_order(self.order, self.n)
    }

    // Whether a table is held, with or without a network.
    #[tactic(auto, unfolding(crate::specs::State::stage_of))]
    pub fn holds_table(self) -> bool
        ensures { result ≡ not (is_nothing (stage_of self)) }
    {
        self.good_heading() && !matches!(self.stage, Stage::Nothing)
    }

    // Whether a network is held.
    #[tactic(auto, unfolding(crate::specs::State::stage_of))]
    pub fn holds_network(self) -> bool
        ensures { result ≡ is_network (stage_of self) }
    {
        self.good_heading() && matches!(self.stage, Stage::Network)
    }
}
