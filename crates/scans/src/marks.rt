ghost use Rattle.std.specs.Prelude.{◌≡◌, ℕ, ◌<◌, false, List, ◌∷◌, length, slice_index};
ghost use Rattle.scans.specs.LineMarks.{MarkedBy, ReadMarks};
ghost use Rattle.scans.specs.Texts.{Return, outside, since};
ghost use Rattle.voxels.specs.Space.{voxel_count};

use crate::lines::Line;
use crate::reader::Reader;
use tracing::{Ray, mark_end, trace};
use voxels::Refusal;

// Marks what a return line passes and, for a hit, where it ends.
fn mark_return(words: &mut [u16], depth: u8, ray: Ray, hit: bool)
    requires whole { length words.old ≡ voxel_count depth }
    requires from { outside depth ray.origin ≡ false }
    requires to { outside depth ray.end ≡ false }
    ensures { (returns : List Return) → MarkedBy depth (since ray.origin returns) words.old → MarkedBy depth (since ray.origin (record { is_hit = hit; end = ray.end } ∷ returns)) words.new }
{
    let _ = trace(words, depth, ray);
    if hit {
        mark_end(words, depth, ray.end);
    }
}

// Reads a scan's text to its end line and marks what its lines say, on a word for each voxel, all zero at first. Gives the bytes used.
pub fn mark_lines(words: &mut [u16], depth: u8, text: &[u8]) -> Result<usize, Refusal>
    requires whole { length words.old ≡ voxel_count depth }
    requires blank { (k : ℕ) → k < voxel_count depth → slice_index words.old k ≡ 0 }
    ensures { ReadMarks depth text.now words.new result }
{
    let mut reader = Reader::new(depth, text);
    loop {
        // 513 lines of at most 17 bytes each are read before: their refusals can tell any place.
        let place = reader.place as u32;
        match reader.step().map_err(|reason| reason.at(place))? {
            Line::Origin(_) => {}
            Line::Return { hit, end } => {
                if let Some(since) = reader.since {
                    let ray = Ray {
                        origin: since.origin,
                        end,
                    };
                    mark_return(words, depth, ray, hit);
                }
            }
            Line::End => return Ok(reader.place),
        }
    }
}
