//! Words in a row: the int of each cell.

ghost use Rattle.std.specs.Prelude.{◌≡◌, pos, ◌+◌, ◌-◌, ◌<◌, ◌≤◌, List, [], ◌∷◌, ◌++◌, length, map, take, replicate, OnOk, OnErr};
ghost use Rattle.std.specs.Vec.{vec_len, vec_capacity};
ghost use Rattle.work_item.specs.Store.{int_in, cleared};
ghost use Rattle.work_item.specs.declared.cell.Cell.{Cell};

use ac_base::NoMemory;

// Makes room for one more, which is seldom asked for.
#[inline(never)]
fn grow(words: &mut Vec<i64>) -> Result<(), NoMemory>
    ensures items { words.new.items ≡ words.old.items }
    ensures ok { OnOk result (vec_len words.new < vec_capacity words.new) }
{
    words.reserve(1)?;
    Ok(())
}

/// Puts a word at the end.
#[inline(always)]
pub(crate) fn push_word(words: &mut Vec<i64>, word: i64) -> Result<(), NoMemory>
    ensures ok { OnOk result (words.new.items ≡ words.old.items ++ word ∷ []) }
    ensures err { OnErr result (words.new.items ≡ words.old.items) }
{
    if words.len() == words.capacity() {
        grow(words)?;
    }
    words.push_reserved(word);
    Ok(())
}

/// Puts more words at the end, for which there is room.
#[inline(always)]
pub(crate) fn put_words(words: &mut Vec<i64>, more: &[i64])
    requires { vec_len words.old + length more.now ≤ vec_capacity words.old }
    ensures items { words.new.items ≡ words.old.items ++ more.now }
    ensures capacity { vec_capacity words.new ≡ vec_capacity words.old }
{
    for word in more {
        words.push_reserved(*word);
    }
}

// Puts zeros at the end, up to so many words, for which there is room.
#[inline(always)]
fn put_zeros(words: &mut Vec<i64>, count: usize)
    requires { count ≤ vec_capacity words.old }
    ensures { words.new.items ≡ words.old.items ++ replicate (count - length words.old.items) (pos 0) }
{
    for _ in words.len()..count {
        words.push_reserved(0);
    }
}

// Makes room for so many words in all, and no more.
#[inline(always)]
fn make_words(words: &mut Vec<i64>, count: usize) -> Result<(), NoMemory>
    ensures items { words.new.items ≡ words.old.items }
    ensures ok { OnOk result (count ≤ vec_capacity words.new) }
{
    if words.capacity() < count {
        words.reserve_exact(count - words.len())?;
    }
    Ok(())
}

// Makes them so many, which begin with these and are 0 from there on.
#[inline(always)]
fn fill(words: &mut Vec<i64>, first: &[i64], len: usize) -> Result<(), NoMemory>
    requires { length first.now ≤ len }
    ensures ok { OnOk result (words.new.items ≡ first.now ++ replicate (len - length first.now) (pos 0)) }
    ensures err { OnErr result (words.new.items ≡ words.old.items) }
{
    make_words(words, len)?;
    words.clear();
    put_words(words, first);
    put_zeros(words, len);
    Ok(())
}

// Sets words to 0 from that one on: mostly they are few.
#[inline(always)]
fn zero_from(words: &mut [i64], from: usize)
    requires { from ≤ length words.old }
    ensures { words.new ≡ take from words.old ++ replicate (length words.old - from) (pos 0) }
{
    let len = words.len();
    if from == len {
        return;
    }
    words[from] = 0;
    if from + 1 == len {
        return;
    }
    words[from + 1] = 0;
    if from + 2 == len {
        return;
    }
    words[from + 2..].fill(0);
}

// Sets words to these, and to 0 from there on.
#[inline(always)]
fn refill(words: &mut [i64], first: &[i64])
    requires { length first.now ≤ length words.old }
    ensures { words.new ≡ first.now ++ replicate (length words.old - length first.now) (pos 0) }
{
    for index in 0..first.len() {
        words[index] = first[index];
    }
    zero_from(words, first.len());
}

/// Makes them so many, which begin with these and are 0 from there on. Mostly they are as many
/// already. After want of memory they are as before.
#[inline(always)]
pub(crate) fn lay_words(words: &mut Vec<i64>, first: &[i64], len: usize) -> Result<(), NoMemory>
    requires { length first.now ≤ len }
    ensures ok { OnOk result (words.new.items ≡ first.now ++ replicate (len - length first.now) (pos 0)) }
    ensures err { OnErr result (words.new.items ≡ words.old.items) }
{
    if words.len() == len {
        refill(words.as_mut_slice(), first);
        return Ok(());
    }
    fill(words, first, len)
}

/// Sets so many words from that one on to 0.
pub(crate) fn clear_words(words: &mut [i64], start: usize, len: usize)
    requires { start + len ≤ length words.old }
    ensures { (cells : List Cell) → words.old ≡ map int_in cells → words.new ≡ map int_in (cleared start len cells) }
{
    for index in 0..len {
        words[start + index] = 0;
    }
}
