// A state directory that is held.
ghost use Rattle.std.specs.Prelude.{◌≡◌, ◌≢◌, Some, IsSome, IsTrue, IfOk, string_bytes, true};
ghost use Rattle.std.specs.Path.{path_parent};
ghost use Rattle.directory_store.specs.Names.{path_text, above};
ghost use Rattle.directory_store.specs.Kept.{body_came};
ghost use Rattle.directory_store.specs.declared.spot.Came.TheVariants.{Made};
ghost use Rattle.directory_store.specs.declared.way.Way.TheVariants.{Run, Look};

use crate::limits::file_limit;
use crate::name::{file_path, joined};
use crate::node::Node;
use crate::spot::{Opened, Spot};
use crate::{DirectoryDisk, Way};
use outside::DiskName;
use std::alloc::Global;
use std::fs::{File, Files, Metadata, TryLockError, create_dir, metadata, symlink_metadata};
use std::io;
use std::io::ErrorKind;
use std::path::Path;

/// The disks of each directory but the topology's.
const OTHERS: [DiskName; 13] = [
    DiskName::Offset(0),
    DiskName::Offset(1),
    DiskName::Retry(0),
    DiskName::Retry(1),
    DiskName::Server(0),
    DiskName::Server(1),
    DiskName::Replica(0),
    DiskName::Replica(1),
    DiskName::Replica(2),
    DiskName::Epoch(0, 0),
    DiskName::Epoch(1, 0),
    DiskName::Output(0, 0),
    DiskName::Output(1, 0),
];

/// A directory that is held: its path, and itself, whose lock goes when it is shut.
#[derive(Drop)]
pub(crate) struct Place {
    pub path: String,
    dir: File,
    node: Node,
    way: Way,
    /// Whether a run has begun over it: then all its files are there.
    begun: bool,
    /// Whether it is locked.
    pub locked: bool,
    /// Where a write ends at most.
    limit: u64,
}

impl Place {
    /// Opens a directory and locks it. To be run over it is made where it is missing, and its name and those in it outlive a
    /// stop from then on.
    pub(crate) fn hold<R: Files<File = File>>(
        rt: &R,
        alloc: Global,
        path: &str,
        way: Way,
    ) -> io::Result<Place>
        ensures path { IfOk result (λ place. string_bytes place.path ≡ path.now) }
        ensures way { IfOk result (λ place. place.way ≡ way) }
    {
        let name = String::from_str(alloc, path)?;
        let dir = open_dir(rt, path, way)?;
        let node = Node::of(&dir.metadata()?);
        let locked = lock(&dir, way)?;
        let begun = has_begun(rt, alloc, path)?;
        if way == Way::Run {
            dir.sync_all()?;
            sync_above(rt, path, begun)?;
        }
        Ok(Place {
            path: name,
            dir,
            node,
            way,
            begun,
            locked,
            limit: file_limit(rt),
        })
    }

    fn spot(&self, alloc: Global, name: DiskName) -> io::Result<Spot>
        ensures path { IfOk result (λ spot. string_bytes spot.path ≡ path_text (string_bytes self.now.path) name) }
        ensures node { IfOk result (λ spot. spot.node ≡ self.now.node) }
        ensures way { IfOk result (λ spot. spot.way ≡ self.now.way) }
    {
        let path = file_path(alloc, self.path.as_str(), name)?;
        let mark = joined(alloc, path.as_str(), ".doubt")?;
        let copy = joined(alloc, path.as_str(), ".copy")?;
        Ok(Spot {
            home: String::from_str(alloc, self.path.as_str())?,
            dir: self.dir.try_clone()?,
            node: self.node,
            path,
            mark,
            copy,
            way: self.way,
            limit: self.limit,
        })
    }

    /// A disk whose file is there. One that is missing is made only in a directory that is to be run over and hasn't begun, and
    /// its name outlives a stop.
    pub(crate) fn open_disk<'a, R: Files<File = File>>(
        &self,
        rt: &'a R,
        alloc: Global,
        name: DiskName,
    ) -> io::Result<DirectoryDisk<'a, R>>
        ensures path { IfOk result (λ disk. string_bytes disk.spot.path ≡ path_text (string_bytes self.now.path) name) }
        ensures node { IfOk result (λ disk. disk.spot.node ≡ self.now.node) }
        ensures up { IfOk result (λ disk. IsSome disk.body) }
        ensures begun { IsTrue self.now.begun → IfOk result (λ disk. (body_came disk.body ≢ Some Made) × IsSome (body_came disk.body)) }
        ensures others { self.now.way ≢ Run → IfOk result (λ disk. body_came disk.body ≢ Some Made) }
        ensures fresh { IfOk result (λ disk. disk.faults ≡ 0) }
    {
        let spot = self.spot(alloc, name)?;
        match spot.open_known(rt, false) {
            Ok(opened) => Ok(DirectoryDisk::new(rt, spot, opened)),
            Err(failure) if failure.kind() != ErrorKind::NotFound || self.begun => Err(failure),
            Err(_) if self.way == Way::Run => {
                let opened = self.make_file(rt, &spot)?;
                Ok(DirectoryDisk::new(rt, spot, opened))
            }
            Err(_) => Ok(DirectoryDisk::missing(rt, spot)),
        }
    }

    fn make_file<R: Files<File = File>>(&self, rt: &R, spot: &Spot) -> io::Result<Opened>
        ensures came { IfOk result (λ opened. opened.came ≡ Made) }
        ensures before { IfOk result (λ opened. opened.before ≡ spot.now.node) }
        ensures after { IfOk result (λ opened. opened.after ≡ spot.now.node) }
    {
        let opened = spot.make(rt, spot.path.as_str())?;
        self.dir.sync_all()?;
        Ok(opened)
    }
}

/// Opens a directory, which is made where it is missing and is to be run over. Nothing else is opened: a pipe would be waited for.
fn open_dir<R: Files<File = File>>(rt: &R, path: &str, way: Way) -> io::Result<File> {
    let found = match metadata(rt, path) {
        Err(failure) if failure.kind() == ErrorKind::NotFound && way == Way::Run => {
            create_dir(rt, path)?;
            metadata(rt, path)?
        }
        answer => answer?,
    };
    if !found.is_dir() {
        return Err(ErrorKind::NotADirectory.into());
    }
    let dir = File::open(rt, path)?;
    if Node::of(&dir.metadata()?) != Node::of(&found) {
        return Err(ErrorKind::NotADirectory.into());
    }
    Ok(dir)
}

/// Locks a directory, and answers whether it is locked: it may go without a lock only where it is looked at and none is to be had.
fn lock(dir: &File, way: Way) -> io::Result<bool>
    ensures { way ≢ Look → IfOk result (λ locked. locked ≡ true) }
{
    if way != Way::Look {
        dir.try_lock()?;
        return Ok(true);
    }
    match dir.try_lock_shared() {
        Ok(()) => Ok(true),
        Err(TryLockError::WouldBlock) => Err(ErrorKind::WouldBlock.into()),
        Err(TryLockError::Error(_)) => Ok(false),
    }
}

/// Syncs the directory in which this one has its name. Once a run has begun that has been done, and it may be one that can't be read.
fn sync_above<R: Files<File = File>>(rt: &R, path: &str, begun: bool) -> io::Result<()> {
    match File::open(rt, parent_of(path)) {
        Err(failure) if begun && failure.kind() == ErrorKind::PermissionDenied => Ok(()),
        answer => answer?.sync_all(),
    }
}

/// What stands under a name, if there is anything.
fn found_at<R: Files<File = File>>(rt: &R, path: &str) -> io::Result<Option<Metadata>> {
    match symlink_metadata(rt, path) {
        Ok(found) => Ok(Some(found)),
        Err(failure) if failure.kind() == ErrorKind::NotFound => Ok(None),
        Err(failure) => Err(failure),
    }
}

/// Whether a run has begun over a directory. A first run makes all files before its topology's first record, and the topology's
/// file before all others.
fn has_begun<R: Files<File = File>>(rt: &R, alloc: Global, dir: &str) -> io::Result<bool> {
    let topology = file_path(alloc, dir, DiskName::Topology)?;
    match found_at(rt, topology.as_str()) {
        Ok(Some(found)) => Ok(found.len() > 1),
        Ok(None) => has_others(rt, alloc, dir),
        // What can't be looked at isn't made either.
        Err(_) => Ok(true),
    }
}

fn has_others<R: Files<File = File>>(rt: &R, alloc: Global, dir: &str) -> io::Result<bool> {
    for name in OTHERS {
        let path = file_path(alloc, dir, name)?;
        match found_at(rt, path.as_str())? {
            Some(found) if found.is_file() => return Ok(true),
            _ => {}
        }
    }
    Ok(false)
}

/// The directory in which this one has its name.
fn parent_of(path: &str) -> &str
    ensures { result.now ≡ above path.now (path_parent path.now) }
{
    match Path::new(path).parent() {
        Some(parent) if !parent.as_str().is_empty() => parent.as_str(),
        Some(_) => ".",
        None => path,
    }
}
