//! The table of words.

ghost use Rattle.std.specs.Prelude.{◌≡◌};
ghost use Rattle.ac_lexer.specs.inner.Reading.{among, words_of_two, words_of_three, words_of_four, words_of_five, long_words, word_of};

use crate::token::Word;

fn word_of_two(letters: &[u8]) -> Option<Word>
    ensures { result ≡ among words_of_two letters.now }
{
    if letters == b"do".as_slice() {
        Some(Word::Do)
    } else if letters == b"if".as_slice() {
        Some(Word::If)
    } else if letters == b"OK".as_slice() {
        Some(Word::Ok)
    } else {
        None
    }
}

fn word_of_three(letters: &[u8]) -> Option<Word>
    ensures { result ≡ among words_of_three letters.now }
{
    if letters == b"int".as_slice() {
        Some(Word::Int)
    } else if letters == b"for".as_slice() {
        Some(Word::For)
    } else {
        None
    }
}

fn word_of_four(letters: &[u8]) -> Option<Word>
    ensures { result ≡ among words_of_four letters.now }
{
    if letters == b"void".as_slice() {
        Some(Word::Void)
    } else if letters == b"else".as_slice() {
        Some(Word::Else)
    } else if letters == b"core".as_slice() {
        Some(Word::Core)
    } else if letters == b"file".as_slice() {
        Some(Word::File)
    } else if letters == b"Send".as_slice() {
        Some(Word::Send)
    } else if letters == b"Recv".as_slice() {
        Some(Word::Recv)
    } else if letters == b"Read".as_slice() {
        Some(Word::Read)
    } else {
        None
    }
}

fn word_of_five(letters: &[u8]) -> Option<Word>
    ensures { result ≡ among words_of_five letters.now }
{
    if letters == b"async".as_slice() {
        Some(Word::Async)
    } else if letters == b"yield".as_slice() {
        Some(Word::Yield)
    } else if letters == b"while".as_slice() {
        Some(Word::While)
    } else if letters == b"break".as_slice() {
        Some(Word::Break)
    } else if letters == b"Write".as_slice() {
        Some(Word::Write)
    } else if letters == b"FAULT".as_slice() {
        Some(Word::Fault)
    } else {
        None
    }
}

fn long_word(letters: &[u8]) -> Option<Word>
    ensures { result ≡ among long_words letters.now }
{
    if letters == b"finish".as_slice() {
        Some(Word::Finish)
    } else if letters == b"cancel".as_slice() {
        Some(Word::Cancel)
    } else if letters == b"return".as_slice() {
        Some(Word::Return)
    } else if letters == b"printf".as_slice() {
        Some(Word::Printf)
    } else if letters == b"channel".as_slice() {
        Some(Word::Channel)
    } else if letters == b"continue".as_slice() {
        Some(Word::Continue)
    } else if letters == b"CANCELLED".as_slice() {
        Some(Word::Cancelled)
    } else {
        None
    }
}

/// The word with these letters.
#[tactic(auto, unfolding(crate::specs::inner::Reading::word_of))]
pub fn word_with(letters: &[u8]) -> Option<Word>
    ensures { result ≡ word_of letters.now }
{
    match letters.len() {
        2 => word_of_two(letters),
        3 => word_of_three(letters),
        4 => word_of_four(letters),
        5 => word_of_five(letters),
        _ => long_word(letters),
    }
}
