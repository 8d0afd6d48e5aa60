// Where a disk's file stands, and how it is opened there.
ghost use Rattle.std.specs.Prelude.{◌≡◌, IfOk};
ghost use Rattle.directory_store.specs.declared.spot.Came.TheVariants.{Kept, Copied, Made};

use crate::Way;
use crate::node::Node;
use std::fs::{File, Files, OpenOptions, metadata, symlink_metadata};
use std::io;
use std::io::ErrorKind;

/// Where a disk's file stands: the directory, which stays locked while this is there, and the names of the file, of the mark
/// of its doubt and of its copy.
#[derive(Drop)]
pub(crate) struct Spot {
    /// The directory's path, itself, and what the system knows it by.
    pub home: String,
    pub dir: File,
    pub node: Node,
    pub path: String,
    pub mark: String,
    pub copy: String,
    pub way: Way,
    /// Where a write ends at most.
    pub limit: u64,
}

/// How an open file came to be.
#[derive(Clone, Copy, Debug, PartialEq, Eq)]
pub(crate) enum Came {
    /// It was there, and holds what was synced.
    Kept,
    /// It is a copy that was synced, of a file that mightn't hold what it showed.
    Copied,
    /// It is new.
    Made,
}

/// An open file, and the directory that its name was looked up in, as it was found before and afterwards.
#[derive(Drop)]
pub(crate) struct Opened {
    pub file: File,
    pub came: Came,
    pub before: Node,
    pub after: Node,
}

impl Spot {
    /// What stands at the directory's path, which has to be the directory that is locked: it may have been moved, and another
    /// one made at its old name.
    pub(crate) fn find_home<R: Files<File = File>>(&self, rt: &R) -> io::Result<Node>
        ensures { IfOk result (λ node. node ≡ self.now.node) }
    {
        let found = Node::of(&metadata(rt, self.home.as_str())?);
        if found == self.node {
            Ok(found)
        } else {
            Err(ErrorKind::NotFound.into())
        }
    }

    /// Opens a file by its name, where the name is one of the locked directory before and afterwards.
    fn open_at<R: Files<File = File>>(
        &self,
        rt: &R,
        how: &OpenOptions,
        path: &str,
        came: Came,
    ) -> io::Result<Opened>
        ensures came { IfOk result (λ opened. opened.came ≡ came) }
        ensures before { IfOk result (λ opened. opened.before ≡ self.now.node) }
        ensures after { IfOk result (λ opened. opened.after ≡ self.now.node) }
    {
        let before = self.find_home(rt)?;
        let file = how.open(rt, path)?;
        let after = self.find_home(rt)?;
        Ok(Opened {
            file,
            came,
            before,
            after,
        })
    }

    /// Opens the file that is there. What stands under its name is looked at first, so that no pipe is waited for and no link
    /// followed.
    pub(crate) fn open_kept<R: Files<File = File>>(&self, rt: &R) -> io::Result<Opened>
        ensures came { IfOk result (λ opened. opened.came ≡ Kept) }
        ensures before { IfOk result (λ opened. opened.before ≡ self.now.node) }
        ensures after { IfOk result (λ opened. opened.after ≡ self.now.node) }
    {
        let seen = symlink_metadata(rt, self.path.as_str())?;
        if !seen.is_file() {
            return Err(ErrorKind::InvalidInput.into());
        }
        let mut how = OpenOptions::new();
        how.read(true).write(self.way != Way::Look);
        let opened = self.open_at(rt, &how, self.path.as_str(), Came::Kept)?;
        if Node::of(&opened.file.metadata()?) != Node::of(&seen) {
            return Err(ErrorKind::InvalidInput.into());
        }
        Ok(opened)
    }

    /// Makes a file, which isn't there yet, not even as a link.
    pub(crate) fn make<R: Files<File = File>>(&self, rt: &R, path: &str) -> io::Result<Opened>
        ensures came { IfOk result (λ opened. opened.came ≡ Made) }
        ensures before { IfOk result (λ opened. opened.before ≡ self.now.node) }
        ensures after { IfOk result (λ opened. opened.after ≡ self.now.node) }
    {
        let mut how = OpenOptions::new();
        how.read(true).write(true).create_new(true);
        self.open_at(rt, &how, path, Came::Made)
    }
}
