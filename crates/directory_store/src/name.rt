// The names of the files.
ghost use Rattle.std.specs.Prelude.{◌≡◌, ◌≤◌, ◌+◌, ◌++◌, length, string_bytes, IfOk, decimal};
ghost use Rattle.arrayvec.specs.ArrayString.{array_string_len};
ghost use Rattle.directory_store.specs.Names.{name_text, word, site_text, path_text};
ghost use Rattle.directory_store.specs.declared.name.TheConstants.{NAME_ROOM};

use arrayvec::ArrayString;
use itoa::Buffer;
use outside::DiskName;
use std::alloc::{AllocError, Global};

/// How many bytes a disk's name has room for.
pub const NAME_ROOM: usize = 16;

/// The name of a disk's file, as `offset-A` or `epoch-B2`. Site 0 is `A` and site 1 is `B`. No two disks have one name.
pub fn disk_text(disk: DiskName) -> ArrayString<NAME_ROOM>
    ensures { result.bytes ≡ name_text disk }
{
    let mut text = ArrayString::new();
    text.push_str(first_word(disk));
    match disk {
        DiskName::Topology => {}
        DiskName::Offset(site) | DiskName::Retry(site) | DiskName::Server(site) => push_site(
            &mut text, site,
        ),
        DiskName::Replica(number) => push_number(&mut text, number),
        DiskName::Epoch(site, joiner) | DiskName::Output(site, joiner) => {
            push_site(&mut text, site);
            push_number(&mut text, joiner);
        }
    }
    text
}

fn first_word(disk: DiskName) -> &'static str
    ensures word { result.now ≡ word disk }
    ensures short { length result.now ≤ 8 }
{
    match disk {
        DiskName::Topology => "topology",
        DiskName::Offset(_) => "offset-",
        DiskName::Retry(_) => "retry-",
        DiskName::Server(_) => "server-",
        DiskName::Replica(_) => "replica-",
        DiskName::Epoch(_, _) => "epoch-",
        DiskName::Output(_, _) => "output-",
    }
}

fn push_site(text: &mut ArrayString<NAME_ROOM>, site: u8)
    requires { array_string_len text.old + 4 ≤ NAME_ROOM }
    ensures bytes { text.new.bytes ≡ text.old.bytes ++ site_text site }
    ensures len { array_string_len text.new ≤ array_string_len text.old + 4 }
{
    match site {
        0 => text.push_str("A"),
        1 => text.push_str("B"),
        _ => {
            push_number(text, site);
            text.push_str("-");
        }
    }
}

fn push_number(text: &mut ArrayString<NAME_ROOM>, number: u8)
    requires { array_string_len text.old + 3 ≤ NAME_ROOM }
    ensures bytes { text.new.bytes ≡ text.old.bytes ++ decimal number }
    ensures len { array_string_len text.new ≤ array_string_len text.old + 3 }
{
    let mut digits = Buffer::new();
    text.push_str(digits.format(number));
}

/// The path of a disk's file.
pub(crate) fn file_path(alloc: Global, dir: &str, name: DiskName) -> Result<String, AllocError>
    ensures { IfOk result (λ path. string_bytes path ≡ path_text dir.now name) }
{
    let mut path = String::from_str(alloc, dir)?;
    path.push_str("/")?;
    path.push_str(disk_text(name).as_str())?;
    Ok(path)
}

/// A path with this behind it.
pub(crate) fn joined(alloc: Global, path: &str, behind: &str) -> Result<String, AllocError>
    ensures { IfOk result (λ text. string_bytes text ≡ path.now ++ behind.now) }
{
    let mut text = String::from_str(alloc, path)?;
    text.push_str(behind)?;
    Ok(text)
}
