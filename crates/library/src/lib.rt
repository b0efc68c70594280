// What programs in Rust and in C call, one exported function for each operation that the office is offered. Each returns
// the answer's number; every further number goes to a word that the caller lends, each array to a lent buffer, as many of
// its bytes as that has room for.
#![tactic(auto)]

ghost use Rattle.std.specs.Prelude.{◌≡◌, ℕ};
ghost use Rattle.covering.specs.Desk.{covers_answer, covers_map, kept_answer, kept_map};
ghost use Rattle.reading.specs.Told.{number_told, place_told};
ghost use Rattle.reading.specs.Copy.{CopiesNew, CopiesOld};
ghost use Rattle.exploration.specs.Answer.{Answers};
ghost use Rattle.library.specs.Lent.{lent};

use cover::MAP;
use reading::Refused;

// The number of an answer: 0 means complete.
fn number_in(answer: Result<usize, Refused>) -> u8
    ensures { result ≡ number_told answer }
{
    match answer {
        Ok(_) => 0,
        Err(refused) => u8::from(refused.reason),
    }
}

// The place of an answer: of a complete one the length written.
fn place_in(answer: Result<usize, Refused>) -> usize
    ensures { result ≡ place_told answer }
{
    match answer {
        Ok(len) => len,
        Err(refused) => refused.place,
    }
}

// The union of a book's question, or why there is none; its place.
#[unsafe(no_mangle)]
pub extern "C" fn rauntiko_run(book: &[u8], out: &mut [u8], place: &mut usize) -> u8
    ensures { Answers
        book.now
        out.old
        result
        place.new
        out.new }
{
    let answer = explore::run(book, out);
    *place = place_in(answer);
    number_in(answer)
}

// The book in the new form: refused 1 under 2,003 bytes of room, then as the book itself is; its place.
#[unsafe(no_mangle)]
pub extern "C" fn rauntiko_to_new(book: &[u8], out: &mut [u8], place: &mut usize) -> u8
    ensures { CopiesNew
        book.now
        out.old
        result
        place.new
        out.new }
{
    let copy = forms::to_new(book, out);
    *place = place_in(copy);
    number_in(copy)
}

// The book in the old form: the same, and 13 where it has none.
#[unsafe(no_mangle)]
pub extern "C" fn rauntiko_to_old(book: &[u8], out: &mut [u8], place: &mut usize) -> u8
    ensures { CopiesOld
        book.now
        out.old
        result
        place.new
        out.new }
{
    let copied = forms::to_old(book, out);
    *place = place_in(copied);
    number_in(copied)
}

// Copies as many of the bytes as there is room for.
fn lend(bytes: &[u8], room: &mut [u8])
    ensures { room.new ≡ lent bytes.now room.old }
{
    let n = room.len().min(bytes.len());
    room[..n].copy_from_slice(&bytes[..n]);
}

// Whether the first record covers the second: 0 no, 1 yes, 2 the first is malformed, 3 the second is; and the first map.
// An atom of the records has `width` places, four or six.
#[unsafe(no_mangle)]
pub extern "C" fn rauntiko_covers(first: &[u8], second: &[u8], width: usize, map: &mut [u8]) -> u8
    ensures { (result ≡ covers_answer width first.now second.now)
        × (map.new
        ≡ lent (covers_map width first.now second.now) map.old) }
{
    let covered = cover::covers(first, second, width);
    match &covered {
        Ok(Some(found)) => lend(found, map),
        _ => lend(&[255u8; MAP], map),
    }
    cover::number(&covered)
}

// Which of two records to keep: 1 the first, where it covers the second; 2 the second, where it alone covers; else 0;
// and the map by which it covers the other.
#[unsafe(no_mangle)]
pub extern "C" fn rauntiko_kept(first: &[u8], second: &[u8], width: usize, map: &mut [u8]) -> u8
    ensures { (result ≡ kept_answer width first.now second.now)
        × (map.new
        ≡ lent (kept_map width first.now second.now) map.old) }
{
    let Some(kept) = cover::kept(first, second, width) else {
        lend(&[255u8; MAP], map);
        return 0;
    };
    lend(&kept.map, map);
    u8::from(kept.which)
}
