// The entries of a level in the work buffer.
ghost use Rattle.std.specs.Prelude.{◌+◌, ◌≤◌};
ghost use Rattle.matching.specs.Links.{region_size};

// `count` so far, their parts from byte `to` on; the next link goes to byte `links`, behind them.
#[derive(Clone, Copy)]
pub(crate) struct Entries {
    pub to: usize,
    pub count: usize,
    pub links: usize,
    ghost links_behind: { to + region_size ≤ links },
}
