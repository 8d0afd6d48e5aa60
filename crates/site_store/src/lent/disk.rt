use outside::DiskName;

/// A disk that was taken from a store, with its name.
#[derive(Drop)]
pub struct LentDisk<D> {
    pub name: DiskName,
    pub disk: D,
}
