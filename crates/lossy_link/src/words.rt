//! The words of a plan.
ghost use Rattle.std.specs.Prelude.{◌≡◌};
ghost use Rattle.lossy_link.specs.Words as word;

use crate::plan::{DiskKind, Fate, Kind};
use outside::Image;

// The kinds of node that a word names: one kind, or any.
pub(crate) fn kind_of(name: &str) -> Option<Option<Kind>>
    ensures { result ≡ word.kind_of name.now }
{
    match name {
        "any" => Some(None),
        "dispatcher" => Some(Some(Kind::Dispatcher)),
        "joiner" => Some(Some(Kind::Joiner)),
        "server" => Some(Some(Kind::Server)),
        "replica" => Some(Some(Kind::Replica)),
        _ => None,
    }
}

// The fate that a word names, with its delay.
pub(crate) fn fate_of(delay: u32, name: &str) -> Option<Fate>
    ensures { result ≡ word.fate_of delay name.now }
{
    match name {
        "drop" => Some(Fate::Drop),
        "twice" => Some(Fate::Twice(delay)),
        "late" => Some(Fate::Late(delay)),
        _ => None,
    }
}

pub(crate) fn disk_of(name: &str) -> Option<DiskKind>
    ensures { result ≡ word.disk_of name.now }
{
    match name {
        "offset" => Some(DiskKind::Offset),
        "retry" => Some(DiskKind::Retry),
        "server" => Some(DiskKind::Server),
        "replica" => Some(DiskKind::Replica),
        "epoch" => Some(DiskKind::Epoch),
        "output" => Some(DiskKind::Output),
        _ => None,
    }
}

pub(crate) fn image_of(name: &str) -> Option<Image>
    ensures { result ≡ word.image_of name.now }
{
    match name {
        "old" => Some(Image::Old),
        "new" => Some(Image::New),
        "noise" => Some(Image::Noise),
        _ => None,
    }
}
