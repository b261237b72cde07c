// The first line of a text.
ghost use Rattle.std.specs.Prelude.{◌≡◌, ◌≤◌, codes, Some, None, if◌then◌else◌, length};
ghost use Rattle.std.specs.Option.{option_copied};
ghost use Rattle.workload.specs.Ranges.{is_between};
ghost use Rattle.workload.specs.Texts.{words_left};
ghost use Rattle.workload.specs.VolumeLine.{are_in_range, geometry_of, volume_line, volume_numbers};

use crate::cause::WorkloadNo;
use crate::number::{Numbers, read_numbers};
use crate::words::{count_words, is_shaped, split_word};
use vol_layout::Geometry;

/// The geometry that the first line gives, or the first cause why it gives none.
#[tactic(auto, unfolding(crate::specs::VolumeLine::volume_line, crate::specs::VolumeLine::volume_words))]
pub fn read_volume(line: &[u8]) -> Result<Geometry, WorkloadNo>
    ensures { result ≡ volume_line line.now }
{
    if !is_shaped(line) {
        return Err(WorkloadNo::Shape);
    }
    let (first, rest) = split_word(line);
    if first != b"volume".as_slice() {
        return Err(WorkloadNo::Volume);
    }
    read_geometry(rest)
}

#[tactic(auto, unfolding(crate::specs::VolumeLine::volume_numbers))]
fn read_geometry(left: Option<&[u8]>) -> Result<Geometry, WorkloadNo>
    ensures { result ≡ volume_numbers (words_left (option_copied left.entry)) }
{
    let count = count_words(left);
    if count != 6 && count != 7 {
        return Err(WorkloadNo::Count);
    }
    let Some(numbers) = read_numbers(left) else {
        return Err(WorkloadNo::Number);
    };
    match geometry_of(&numbers) {
        Some(geometry) => Ok(geometry),
        None => Err(WorkloadNo::Range),
    }
}

// The geometry of six or seven numbers, or `None` where one is out of its range.
fn geometry_of(numbers: &Numbers) -> Option<Geometry>
    ensures { result ≡ (if are_in_range numbers.now then Some (geometry_of numbers.now) else None) }
{
    let hosts = between(numbers.at(0), 1, 16)?;
    let files = between(numbers.at(1), 1, 64)?;
    let groups = between(numbers.at(2), 1, 64)?;
    let parts = between(numbers.at(3), 1, 16)?;
    let shards = between(numbers.at(4), 1, 64)?;
    let logs = between(numbers.at(5), 1, 16)?;
    let tables = if numbers.len() == 7 {
        between(numbers.at(6), 2, 16)?
    } else {
        1
    };
    Some(Geometry {
        hosts,
        files,
        groups,
        parts,
        shards,
        logs,
        tables,
    })
}

fn between(number: u64, low: u8, high: u8) -> Option<u8>
    ensures { result ≡ (if is_between low high number then Some number else None) }
{
    match u8::try_from(number) {
        Ok(narrow) if low <= narrow && narrow <= high => Some(narrow),
        _ => None,
    }
}
