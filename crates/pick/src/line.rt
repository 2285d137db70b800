ghost use Rattle.std.specs.Prelude.{◌≡◌, ◌+◌, ◌-◌, ◌≤◌, ℕ, ◌<◌, length, take, drop, map, ◌++◌, ◌&&◌, nat_le, nat_lt, slice_index_or};
ghost use Rattle.std.specs.List.{AllByRecursion, prefix_len};
ghost use Rattle.pick.specs.Lines.{before, within, stretch, lowered};
ghost use Rattle.pick.specs.Laws.{LineIsWhole};
ghost use Rattle.pick.specs.Refusals.{picked, right, told};

use crate::record::{HasCluster, TakesCluster};
use crate::refusal::Refusal;

// So many records in a row, behind so many others.
#[derive(Clone, Copy, Debug, PartialEq)]
pub struct Stretch {
    pub first: usize,
    pub count: usize,
}

fn is_within(cluster: u32, a: u32, b: u32) -> bool
    ensures { result ≡ (nat_le a cluster && nat_lt cluster b) }
{
    a <= cluster && cluster < b
}

// How many leading records have a cluster from `a` to below `b`.
fn leading<R: HasCluster>(records: &[R], a: u32, b: u32) -> usize
    ensures count { result ≡ prefix_len (within R.HasCluster.cluster_of a b) records.now }
    ensures bound { result ≤ length records.now }
{
    for (n, record) in records.iter().enumerate() {
        if !is_within(record.cluster(), a, b) {
            return n;
        }
    }
    records.len()
}

// The records of the characters from `a` to before `b`: behind the leading ones with a cluster below `a`, as many as follow with a cluster from `a` to below `b`.
pub fn find_line<R: HasCluster>(records: &[R], a: u32, b: u32) -> Stretch
    ensures line { result ≡ stretch R.HasCluster.cluster_of a b records.now }
    ensures inside { result.first + result.count ≤ length records.now }
{
    let first = leading(records, 0, a);
    let count = leading(&records[first..], a, b);
    Stretch { first, count }
}

// Copies records to the front of a buffer, with clusters lowered by `a`.
fn copy_lowered<R: TakesCluster + Drop>(records: &[R], a: u32, buffer: &mut [R])
    requires fits { length records.now ≤ length buffer.old }
    requires inside { (k : ℕ) (d : R) → k < length records.now → a ≤ R.HasCluster.cluster_of (slice_index_or records.now k d) }
    ensures { buffer.new ≡ map (lowered R.HasCluster.cluster_of R.TakesCluster.copy_at a) records.now ++ drop (length records.now) buffer.old }
{
    for (i, record) in records.iter().enumerate() {
        buffer[i] = record.copy_at(record.cluster() - a);
    }
}

// The same records, copied to the front of a buffer with clusters lowered by `a`, as of a text that begins there. The buffer's rest stays.
pub fn pick<R: TakesCluster + Drop>(
    records: &[R],
    a: u32,
    b: u32,
    buffer: &mut [R],
) -> Result<Stretch, Refusal>
    ensures answer { told result ≡ right R.HasCluster.cluster_of a b records.now (length buffer.old) }
    ensures buffer { buffer.new ≡ picked R.HasCluster.cluster_of R.TakesCluster.copy_at a b records.now buffer.old }
{
    if a >= b {
        return Err(Refusal::Ends);
    }
    let line = find_line(records, a, b);
    if line.count > buffer.len() {
        return Err(Refusal::Room);
    }
    copy_lowered(&records[line.first..line.first + line.count], a, buffer);
    Ok(line)
}

// Of records whose clusters never fall, these are all that lie from `a` to before `b`.
pub fn line_is_whole<R: HasCluster>()
    ensures { LineIsWhole R.HasCluster.cluster_of }
{}
