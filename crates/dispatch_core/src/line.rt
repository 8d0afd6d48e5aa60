// A line of the window.
ghost use Rattle.std.specs.Prelude.{◌≡◌};
ghost use Rattle.dispatch_core.specs.Terms.{IsClick};
ghost use Rattle.std.proofs.Props.{props};
ghost use Rattle.dispatch_core.specs.Spelled.{IsJoin};

use log_records::ClickRec;

// A line that was taken: its place, the place behind it, its click, and whether its join has ended. Its Join has a spelling.
#[derive(Debug, Drop)]
pub(crate) struct FreshLine {
    pub(crate) position: u64,
    pub(crate) end: u64,
    pub(crate) click: ClickRec,
    pub(crate) done: bool,
    ghost spelled: { IsJoin (position, click) } by { Prim.hlevel props },
}

impl FreshLine {
    pub(crate) fn new(position: u64, end: u64, click: ClickRec, done: bool) -> FreshLine
        requires { IsClick click }
        ensures position { result.position ≡ position }
        ensures end { result.end ≡ end }
        ensures click { result.click ≡ click }
        ensures done { result.done ≡ done }
    {
        FreshLine {
            position,
            end,
            click,
            done,
        }
    }
}
