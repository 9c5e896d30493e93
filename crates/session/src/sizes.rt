// Whether the lent slices have the sizes that the session records, and where a row's bytes lie.
ghost use Rattle.std.specs.Prelude.{◌≡◌, ◌+◌, ◌*◌, ◌^◌, ◌<◌, ◌≤◌, length};
ghost use Rattle.session.specs.Sizes.{sized, rows_fit, area_fits, bus_fits, place_of, data_at, memory_sizes, lent_sizes};

use crate::Size;
use words::slices;

const ROW_WORDS: u64 = rows::ROW_WORDS as u64;

// A row of the store, and where its bytes start in the area.
#[derive(Clone, Copy)]
pub struct Place {
    pub row: usize,
    pub start: usize,
}

// 1 to 1,024 rows of 1 to 65,536 bytes.
fn is_sized(size: Size) -> bool
    ensures { result ≡ sized size }
{
    (1..=1024).contains(&size.row_count) && (1..=65536).contains(&size.row_bytes)
}

// The rows' words are as many as the size asks for.
pub fn rows_fit(size: Size, words: usize) -> bool
    ensures { result ≡ rows_fit size words }
{
    is_sized(size) && words as u64 == size.row_count * ROW_WORDS
}

fn area_fits(size: Size, bytes: usize) -> bool
    ensures { result ≡ area_fits size bytes }
{
    is_sized(size) && bytes as u64 == size.row_count * size.row_bytes
}

pub(crate) fn bus_fits(words: usize) -> bool
    ensures { result ≡ bus_fits words }
{
    words == bus::WORDS
}

// The rows and the area.
pub fn memory_fits(size: Size, words: usize, bytes: usize) -> bool
    ensures { result ≡ memory_sizes size words bytes }
{
    rows_fit(size, words) && area_fits(size, bytes)
}

// The rows, the area and the bus.
pub(crate) fn lent_fits(size: Size, words: usize, bytes: usize, bus_words: usize) -> bool
    ensures { result ≡ lent_sizes size words bytes bus_words }
{
    memory_fits(size, words, bytes) && bus_fits(bus_words)
}

pub fn place_of(size: Size, i: usize) -> Place
    requires { i * size.row_bytes < 2 ^ 64 }
    ensures { result ≡ place_of size i }
{
    Place {
        row: i,
        start: i * size.row_bytes as usize,
    }
}

// A valid completion's data overwrites the first of row i's bytes, cut at their end.
pub fn put_data(area: &mut [u8], size: Size, i: usize, bytes: &[u8])
    requires { i * size.row_bytes + size.row_bytes ≤ length area.old }
    ensures { area.new ≡ data_at size i bytes.now area.old }
{
    let place = place_of(size, i);
    slices::copy_cut(area, place.start, size.row_bytes as usize, bytes);
}
