// Files that may show what isn't on the disk.
ghost use Rattle.std.specs.Prelude.{◌≡◌, ◌≢◌, ◌≤◌, ◌+◌, ◌^◌, length, IfOk, OnOk, IsTrue};
ghost use Rattle.directory_store.specs.declared.spot.Came.TheVariants.{Copied, Made};
ghost use Rattle.directory_store.specs.declared.way.Way.TheVariants.{Look};

use crate::Way;
use crate::spot::{Came, Opened, Spot};
use std::fs::{File, Files, Metadata, remove_file, rename, symlink_metadata};
use std::io;
use std::io::ErrorKind;
use std::os::unix::fs::{FileExt, MetadataExt};

/// Where the last byte of a file ends at most.
pub(crate) const END: u64 = 1 << 63;

/// How much is copied at once.
const PIECE: usize = 1 << 14;

pub(crate) fn file_len(file: &File) -> io::Result<u64>
    ensures { IfOk result (λ n. n ≤ 2 ^ 63) }
{
    let n = file.metadata()?.len();
    if n > END {
        return Err(ErrorKind::FileTooLarge.into());
    }
    Ok(n)
}

/// Writes all of the bytes where they end by the limit.
pub(crate) fn write_whole(file: &File, at: u64, bytes: &[u8], limit: u64) -> io::Result<()>
    ensures end { OnOk result (at + length bytes.now ≤ 2 ^ 63) }
    ensures limit { OnOk result (at + length bytes.now ≤ limit) }
{
    match at.checked_add(bytes.len() as u64) {
        Some(end) if end <= END && end <= limit => file.write_all_at(bytes, at),
        _ => Err(ErrorKind::FileTooLarge.into()),
    }
}

fn copy_bytes(from: &File, to: &File, limit: u64) -> io::Result<()> {
    let len = file_len(from)?;
    let mut piece = [0; PIECE];
    for number in 0..=len / PIECE as u64 {
        let at = number.saturating_mul(PIECE as u64);
        let size = len.saturating_sub(at).min(PIECE as u64) as usize;
        from.read_exact_at(&mut piece[..size], at)?;
        write_whole(to, at, &piece[..size], limit)?;
    }
    Ok(())
}

/// Gives the new file the old one's rights, and its owner where that may be.
fn copy_rights<R: Files<File = File>>(
    rt: &R,
    old: &Metadata,
    new: &File,
    path: &str,
) -> io::Result<()> {
    let _ = rt.chown(path, Some(old.uid()), Some(old.gid()));
    new.set_permissions(old.permissions())
}

impl Spot {
    /// Whether the mark of its doubt stands beside the file.
    fn is_marked<R: Files<File = File>>(&self, rt: &R) -> io::Result<bool> {
        match symlink_metadata(rt, self.mark.as_str()) {
            Ok(_) => Ok(true),
            Err(failure) if failure.kind() == ErrorKind::NotFound => Ok(false),
            Err(failure) => Err(failure),
        }
    }

    /// Sets the mark, which isn't synced: see `open_known`.
    pub(crate) fn set_mark<R: Files<File = File>>(&self, rt: &R) -> io::Result<()> {
        match self.make(rt, self.mark.as_str()) {
            Ok(_) => Ok(()),
            Err(failure) if failure.kind() == ErrorKind::AlreadyExists => Ok(()),
            Err(failure) => Err(failure),
        }
    }

    /// Takes the mark away. Where that fails the next opening copies the file.
    pub(crate) fn clear_mark<R: Files<File = File>>(&self, rt: &R) {
        let _ = self.clear(rt, self.mark.as_str());
    }

    /// Takes a file away, if it is there.
    fn clear<R: Files<File = File>>(&self, rt: &R, path: &str) -> io::Result<()> {
        self.find_home(rt)?;
        match remove_file(rt, path) {
            Err(failure) if failure.kind() == ErrorKind::NotFound => Ok(()),
            answer => answer,
        }
    }

    fn fill_copy<R: Files<File = File>>(&self, rt: &R, old: &File, new: &File) -> io::Result<()> {
        copy_bytes(old, new, self.limit)?;
        copy_rights(rt, &old.metadata()?, new, self.copy.as_str())?;
        new.sync_all()?;
        self.find_home(rt)?;
        rename(rt, self.copy.as_str(), self.path.as_str())?;
        self.dir.sync_all()
    }

    /// Puts a whole copy of the file in its place. A stop before the end leaves the old file under the name, or the copy.
    fn copy_whole<R: Files<File = File>>(&self, rt: &R) -> io::Result<Opened>
        ensures came { IfOk result (λ opened. opened.came ≡ Copied) }
        ensures before { IfOk result (λ opened. opened.before ≡ self.now.node) }
        ensures after { IfOk result (λ opened. opened.after ≡ self.now.node) }
    {
        let old = self.open_kept(rt)?;
        self.clear(rt, self.copy.as_str())?;
        let new = self.make(rt, self.copy.as_str())?;
        match self.fill_copy(rt, &old.file, &new.file) {
            Ok(()) => {
                self.clear_mark(rt);
                Ok(Opened {
                    came: Came::Copied,
                    ..new
                })
            }
            Err(failure) => {
                let _ = self.clear(rt, self.copy.as_str());
                Err(failure)
            }
        }
    }
    /// Opens the file that is there so that what it reads is what the disk holds once it is synced.
    ///
    /// After a sync that failed the system may show bytes that never came to the disk, and take them for written: a later sync
    /// writes only what was written since. So before its first write a file gets a mark beside it, which is taken away once all
    /// that was written is synced. A file that is in doubt, or that a stop has left with its mark, is copied whole: what it shows
    /// now is then on the disk. The mark needs no sync. A loss of power that takes it also takes all that the system held beside
    /// the disk, so that a read shows what the disk holds; else the mark is seen, whether it is on the disk or not.
    ///
    /// Who only looks at a file acknowledges nothing, and takes it as it reads.
    pub(crate) fn open_known<R: Files<File = File>>(
        &self,
        rt: &R,
        doubt: bool,
    ) -> io::Result<Opened>
        ensures doubt { IsTrue doubt → self.now.way ≢ Look → IfOk result (λ opened. opened.came ≡ Copied) }
        ensures there { IfOk result (λ opened. opened.came ≢ Made) }
        ensures before { IfOk result (λ opened. opened.before ≡ self.now.node) }
        ensures after { IfOk result (λ opened. opened.after ≡ self.now.node) }
    {
        if self.way == Way::Look {
            return self.open_kept(rt);
        }
        if doubt || self.is_marked(rt)? {
            self.copy_whole(rt)
        } else {
            self.open_kept(rt)
        }
    }
}
