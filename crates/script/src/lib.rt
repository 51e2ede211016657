// What a line of the script is: words separated by single spaces, of which the first names the call.
#![tactic(auto)]

ghost use Rattle.std.specs.Prelude.{◌≡◌, ◌≤◌, ◌/◌, min, length, take};
ghost use Rattle.text.specs.Text.{most_bytes};
ghost use Rattle.script.specs.Line.{first_at, past_of, before_of, after_of, with_digit, digits_from, number_of, pair_of, hex_digit, all_hex};
ghost use Rattle.script.specs.Line.{is_record, hex_byte, record_in, one_verb, verb_of, setup_line, lock_line, begin_line, step_line, show_line};
ghost use Rattle.script.specs.Line.{park_line, one_number, one_line, call_of, named_call, line_of};

// The first place of x in s; past the end where it is not there.
pub fn first_at(s: &[u8], x: u8) -> usize
    ensures value { result ≡ first_at x s.now }
    ensures upper_bound { result ≤ length s.now }
{
    s.iter().position(|&b| b == x).unwrap_or(s.len())
}

// The place after the first x; the end where it is not there.
#[tactic(auto, unfolding(crate::specs::Line::past_of))]
pub fn past(s: &[u8], x: u8) -> usize
    ensures value { result ≡ past_of x s.now }
    ensures lower_bound { (min 1 (length s.now) ≤ result) × (result ≤ length s.now) }
{
    (first_at(s, x) + 1).min(s.len())
}

// The bytes before the first x.
#[tactic(auto, unfolding(crate::specs::Line::before_of))]
pub fn before(s: &[u8], x: u8) -> &[u8]
    ensures { result.now ≡ before_of x s.now }
{
    &s[..first_at(s, x)]
}

// The bytes after the first x.
#[tactic(auto, unfolding(crate::specs::Line::after_of))]
pub fn after(s: &[u8], x: u8) -> &[u8]
    ensures { result.now ≡ after_of x s.now }
{
    &s[past(s, x)..]
}

// The call that a line's first word names.
#[derive(Clone, Copy)]
pub enum Verb {
    Setup,
    Begin,
    Step,
    Collect,
    Drop,
    Word,
    Lock,
    Show,
    Park,
}

// A call with its numbers. The record of a setup or a begin is the line's last word.
#[derive(Clone, Copy)]
pub enum Call {
    Setup,
    Begin(u32, u32),
    Step(u32, u32),
    Collect(u32),
    Drop(u32),
    Word(u32),
    Lock(u32),
    Show(u32, u32),
    Park(u32),
}

#[derive(Clone, Copy)]
pub enum Line {
    Passed,
    Makes(Call),
    Bad,
}

// The digit b after the number n, where that is still a number.
#[tactic(auto, using(crate::proofs::Laws::digit_none, crate::proofs::Laws::digit_added))]
fn with_digit(n: u32, b: u8) -> Option<u32>
    ensures { result ≡ with_digit n b }
{
    let digit = char::from(b).to_digit(10)?;
    n.checked_mul(10)?.checked_add(digit)
}

#[tactic(auto, unfolding(crate::specs::Line::digits_from))]
fn digits_of(word: &[u8]) -> Option<u32>
    ensures { result ≡ digits_from 0 word.now }
{
    let mut n: u32 = 0;
    for &b in word {
        n = with_digit(n, b)?;
    }
    Some(n)
}

// One to ten decimal digits, at most 4294967295.
#[tactic(auto, unfolding(crate::specs::Line::number_of))]
fn number_of(word: &[u8]) -> Option<u32>
    ensures { result ≡ number_of word.now }
{
    match word.len() {
        1..=10 => digits_of(word),
        _ => None,
    }
}

// Two words that are numbers, and no more.
#[tactic(auto, unfolding(crate::specs::Line::pair_of))]
fn pair_of(words: &[u8]) -> Option<(u32, u32)>
    ensures { result ≡ pair_of words.now }
{
    let first = number_of(before(words, b' '))?;
    let second = number_of(after(words, b' '))?;
    Some((first, second))
}

// What a hexadecimal digit stands for, in either case.
#[tactic(auto, using(crate::proofs::Laws::hex_by))]
fn hex_digit(b: u8) -> Option<u32>
    ensures { result ≡ hex_digit b }
{
    char::from(b).to_digit(16)
}

fn all_hex(word: &[u8]) -> bool
    ensures { result ≡ all_hex word.now }
{
    word.iter().all(|&b| hex_digit(b).is_some())
}

// 1 to 512 bytes, two digits a byte; or `-` for none.
#[tactic(auto, using(crate::proofs::Laws::reading), unfolding(crate::specs::Line::is_record))]
fn is_record(word: &[u8]) -> bool
    ensures { result ≡ is_record word.now }
{
    if word == b"-".as_slice() {
        return true;
    }
    match word.len() {
        2..=1024 => word.len() % 2 == 0 && all_hex(word),
        _ => false,
    }
}

#[tactic(auto, using(crate::proofs::Laws::digit_within), unfolding(crate::specs::Line::hex_byte))]
fn byte_of(high: u8, low: u8) -> u8
    ensures { result ≡ hex_byte high low }
{
    (hex_digit(high).unwrap_or(0) * 16 + hex_digit(low).unwrap_or(0)) as u8
}

// How many bytes a word stands for.
fn byte_count(word: &[u8]) -> usize
    ensures { result ≡ min (length word.now / 2) most_bytes }
{
    (word.len() / 2).min(512)
}

// A record's bytes, at most 512, and how many there are. No `ArrayVec`, which can't be copied.
#[derive(Clone, Copy)]
pub struct Record {
    pub bytes: [u8; 512],
    pub length: usize,
    ghost within: { length ≤ most_bytes },
}

impl Record {
    pub fn as_slice(&self) -> &[u8]
        ensures { result.now ≡ take self.now.length self.now.bytes }
    {
        &self.bytes[..self.length]
    }
}

pub fn record_of(word: &[u8]) -> Record
    ensures { take result.length result.bytes ≡ record_in word.now }
{
    let length = byte_count(word);
    let mut bytes = [0; 512];
    for j in 0..length {
        bytes[j] = byte_of(word[2 * j], word[2 * j + 1]);
    }
    Record { bytes, length }
}

// The words with one number after them.
#[tactic(auto, using(crate::proofs::Laws::reading), unfolding(crate::specs::Line::one_verb))]
fn one_verb(word: &[u8]) -> Option<Verb>
    ensures { result ≡ one_verb word.now }
{
    // A chain of tests: where a `match` takes a byte string, the prover is told of its length alone.
    if word == b"collect".as_slice() {
        return Some(Verb::Collect);
    }
    if word == b"drop".as_slice() {
        return Some(Verb::Drop);
    }
    if word == b"word".as_slice() {
        return Some(Verb::Word);
    }
    if word == b"lock".as_slice() {
        return Some(Verb::Lock);
    }
    if word == b"park".as_slice() {
        return Some(Verb::Park);
    }
    None
}

#[tactic(auto, using(crate::proofs::Laws::reading), unfolding(crate::specs::Line::verb_of))]
fn verb_of(word: &[u8]) -> Option<Verb>
    ensures { result ≡ verb_of word.now }
{
    if word == b"setup".as_slice() {
        return Some(Verb::Setup);
    }
    if word == b"begin".as_slice() {
        return Some(Verb::Begin);
    }
    if word == b"step".as_slice() {
        return Some(Verb::Step);
    }
    if word == b"show".as_slice() {
        return Some(Verb::Show);
    }
    one_verb(word)
}

#[tactic(auto, unfolding(crate::specs::Line::setup_line))]
fn setup_line(words: &[u8]) -> Option<Call>
    ensures { result ≡ setup_line words.now }
{
    if is_record(words) {
        Some(Call::Setup)
    } else {
        None
    }
}

// The lock and the record of a begin of worker w.
#[tactic(auto, unfolding(crate::specs::Line::lock_line))]
fn lock_line(w: u32, words: &[u8]) -> Option<Call>
    ensures { result ≡ lock_line w words.now }
{
    let lock = number_of(before(words, b' '))?;
    is_record(after(words, b' ')).then_some(Call::Begin(w, lock))
}

#[tactic(auto, unfolding(crate::specs::Line::begin_line))]
fn begin_line(words: &[u8]) -> Option<Call>
    ensures { result ≡ begin_line words.now }
{
    let worker = number_of(before(words, b' '))?;
    lock_line(worker, after(words, b' '))
}

#[tactic(auto, unfolding(crate::specs::Line::step_line))]
fn step_line(words: &[u8]) -> Option<Call>
    ensures { result ≡ step_line words.now }
{
    if let Some(w) = number_of(words) {
        return Some(Call::Step(w, 1));
    }
    let (w, n) = pair_of(words)?;
    Some(Call::Step(w, n))
}

#[tactic(auto, unfolding(crate::specs::Line::show_line))]
fn show_line(words: &[u8]) -> Option<Call>
    ensures { result ≡ show_line words.now }
{
    let (s, n) = pair_of(words)?;
    if 512 < n {
        None
    } else {
        Some(Call::Show(s, n))
    }
}

#[tactic(auto, unfolding(crate::specs::Line::park_line))]
fn park_line(n: u32) -> Option<Call>
    ensures { result ≡ park_line n }
{
    (n <= 512).then_some(Call::Park(n))
}

// The calls that take one number.
#[tactic(auto, unfolding(crate::specs::Line::one_number))]
fn one_number(verb: Verb, n: u32) -> Option<Call>
    ensures { result ≡ one_number verb n }
{
    match verb {
        Verb::Collect => Some(Call::Collect(n)),
        Verb::Drop => Some(Call::Drop(n)),
        Verb::Word => Some(Call::Word(n)),
        Verb::Lock => Some(Call::Lock(n)),
        Verb::Park => park_line(n),
        Verb::Setup | Verb::Begin | Verb::Step | Verb::Show => None,
    }
}

#[tactic(auto, unfolding(crate::specs::Line::one_line))]
fn one_line(verb: Verb, words: &[u8]) -> Option<Call>
    ensures { result ≡ one_line verb words.now }
{
    one_number(verb, number_of(words)?)
}

// By the verb: a match, since a verb is read from a line and can be no closure.
#[tactic(auto, unfolding(crate::specs::Line::call_of))]
fn call_of(verb: Verb, words: &[u8]) -> Option<Call>
    ensures { result ≡ call_of verb words.now }
{
    match verb {
        Verb::Setup => setup_line(words),
        Verb::Begin => begin_line(words),
        Verb::Step => step_line(words),
        Verb::Show => show_line(words),
        Verb::Collect | Verb::Drop | Verb::Word | Verb::Lock | Verb::Park => one_line(verb, words),
    }
}

// The call that a line names with all its words.
#[tactic(auto, unfolding(crate::specs::Line::named_call))]
fn named_call(text: &[u8]) -> Option<Call>
    ensures { result ≡ named_call text.now }
{
    let verb = verb_of(before(text, b' '))?;
    call_of(verb, after(text, b' '))
}

// A line that starts with `#` or is empty is passed over.
#[tactic(auto, unfolding(crate::specs::Line::line_of))]
pub fn line_of(text: &[u8]) -> Line
    ensures { result ≡ line_of text.now }
{
    if text.is_empty() || text[0] == b'#' {
        return Line::Passed;
    }
    match named_call(text) {
        Some(call) => Line::Makes(call),
        None => Line::Bad,
    }
}
