// What calls answer, as the tables state it, and masks as they lay them.
use bodies::Loaded;
use scans::Scanned;
use std::process::Abort;
use stores::Mask;
use voxels::Refusal;

// A refusal is told by its number and place, as labs know it.
pub fn told<T>(answer: Result<T, Refusal>) -> Result<T, (u8, u32)> {
    answer.map_err(|refusal| (refusal.reason.number(), refusal.place))
}

// An accepted scan is told by the bytes used and the voxels set and skipped.
pub fn told_scan(answer: Result<Scanned, Refusal>) -> Result<(usize, u32, u32), (u8, u32)> {
    told(answer.map(|scanned| (scanned.used, scanned.set, scanned.skipped)))
}

// An accepted load is told by the voxels set and skipped.
pub fn told_load(answer: Result<Loaded, Refusal>) -> Result<(u32, u32), (u8, u32)> {
    told(answer.map(|loaded| (loaded.set, loaded.skipped)))
}

pub fn mask_of(rt: &impl Abort, bytes: &[u8]) -> Mask {
    let mut mask = Mask::empty();
    assert_eq!(rt; told(mask.fill(bytes)), Ok(()));
    mask
}
