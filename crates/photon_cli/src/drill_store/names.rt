// The disks of a run, by their kinds and their numbers among those of the kind.
ghost use Rattle.std.specs.Prelude.{◌≡◌, ◌≤◌, ◌<◌, ◌-◌, false, nat_lt, if◌then◌else◌, Some, None};
ghost use Rattle.photon_cli.specs.Terms.{DiskName, MOST_JOINERS, same_name};
ghost use Rattle.std.specs.Option.{option_map_or};
ghost use Rattle.photon_cli.specs.Planned.{named_by, place_of, is_at};

use crate::engine::REPLICAS;
use lossy_link::DiskKind;
use outside::DiskName;

/// The disk of this kind and number, where a run with so many joiners a site has it.
pub fn disk_at(joiners: u8, kind: DiskKind, number: u8) -> Option<DiskName>
    requires { joiners ≤ MOST_JOINERS }
    ensures { (name : DiskName) → option_map_or (λ found. same_name found name) result false ≡ is_at kind (Some number) (place_of joiners name) }
{
    let of_second = number >= joiners;
    let site = u8::from(of_second);
    let joiner = if of_second { number - joiners } else { number };
    match kind {
        DiskKind::Offset => below(number, 2, DiskName::Offset(number)),
        DiskKind::Retry => below(number, 2, DiskName::Retry(number)),
        DiskKind::Server => below(number, 2, DiskName::Server(number)),
        DiskKind::Replica => below(number, REPLICAS, DiskName::Replica(number)),
        DiskKind::Epoch => below(number, 2 * joiners, DiskName::Epoch(site, joiner)),
        DiskKind::Output => below(number, 2 * joiners, DiskName::Output(site, joiner)),
    }
}

// The name, where the number is one of so many.
fn below(number: u8, count: u8, name: DiskName) -> Option<DiskName>
    ensures { result ≡ (if nat_lt number count then Some name else None) }
{
    if number < count { Some(name) } else { None }
}

/// Whether a stop names the disk of this number: one without a number names all.
pub fn is_named(which: Option<u8>, number: u8) -> bool
    ensures { result ≡ named_by which number }
{
    match which {
        Some(named) => named == number,
        None => true,
    }
}
