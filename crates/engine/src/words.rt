//! The words behind a command's name.
ghost use Rattle.std.specs.Prelude.{◌≡◌, ◌≤◌, ◌<◌, ◌==◌, ◌&&◌, IfSome, Some, length, map, not, nat_le, true};
ghost use Rattle.std.specs.List.{list_all};
ghost use Rattle.std.specs.String.{string_bytes};
ghost use Rattle.engine.specs.Words.{are_scripts, is_begun_well, is_file_word, is_serve, stages_of, stages_within, workers_behind, workers_of, workers_within};

use cyc_text::read_number;

/// The fewest stages of a ring.
const LEAST_STAGES: u64 = 3;

/// The most stages of a ring.
const MOST_STAGES: u64 = 4096;

/// The most workers.
const MOST_WORKERS: u64 = 64;

/// The most scripts.
const MOST_SCRIPTS: usize = 32;

/// Whether the first word is `serve`.
pub fn is_serve(words: &[String]) -> bool
    ensures { result ≡ is_serve (map string_bytes words.now) }
{
    match words {
        [] => false,
        [name, ..] => name.as_str() == "serve",
    }
}

fn is_begun_well(word: &[u8]) -> bool
    ensures { result ≡ is_begun_well word.now }
{
    match word {
        [] => false,
        [first, ..] => *first != b'-',
    }
}

fn is_plain(word: &[u8]) -> bool
    ensures { result ≡ list_all (λ byte. nat_le 32 byte && not (byte == 127)) word.now }
{
    word.iter().all(|byte| *byte >= 32 && *byte != 127)
}

/// Whether a word names a file.
pub(crate) fn is_file(word: &str) -> bool
    ensures { result ≡ is_file_word word.now }
{
    let bytes = word.as_bytes();
    is_begun_well(bytes) && is_plain(bytes)
}

/// The number where it is one of a ring's stages.
fn within(number: u64) -> Option<u32>
    ensures stages { result ≡ stages_within (Some number) }
    ensures least { IfSome result (λ n. 3 ≤ n) }
    ensures most { IfSome result (λ n. n ≤ 4096) }
{
    if number >= LEAST_STAGES && number <= MOST_STAGES {
        Some(number as u32)
    } else {
        None
    }
}

/// The stages of a ring that a word says.
pub(crate) fn read_stages(word: &str) -> Option<u32>
    ensures stages { result ≡ stages_of word.now }
    ensures least { IfSome result (λ n. 3 ≤ n) }
    ensures most { IfSome result (λ n. n ≤ 4096) }
{
    match read_number(word.as_bytes()) {
        None => None,
        Some(number) => within(number),
    }
}

/// The number where it is one of workers.
fn workers_within(number: u64) -> Option<u32>
    ensures workers { result ≡ workers_within (Some number) }
    ensures some { IfSome result (λ n. 0 < n) }
    ensures few { IfSome result (λ n. n ≤ 64) }
{
    if number >= 1 && number <= MOST_WORKERS {
        Some(number as u32)
    } else {
        None
    }
}

/// The number of workers that two words say: `--workers N`.
pub(crate) fn read_workers(flag: &str, count: &str) -> Option<u32>
    ensures workers { result ≡ workers_of flag.now count.now }
    ensures some { IfSome result (λ n. 0 < n) }
    ensures few { IfSome result (λ n. n ≤ 64) }
{
    if flag != "--workers" {
        return None;
    }
    match read_number(count.as_bytes()) {
        None => None,
        Some(number) => workers_within(number),
    }
}

/// The number of workers that the words behind a command's own say: 1 where there are none.
pub(crate) fn workers_behind(words: &[String]) -> Option<u32>
    ensures workers { result ≡ workers_behind (map string_bytes words.now) }
    ensures some { IfSome result (λ n. 0 < n) }
    ensures few { IfSome result (λ n. n ≤ 64) }
{
    if words.is_empty() {
        return Some(1);
    }
    let [flag, count] = words else {
        return None;
    };
    read_workers(flag.as_str(), count.as_str())
}

/// Whether each word names a file.
fn are_files(words: &[String]) -> bool
    ensures { result ≡ list_all (λ word. is_file_word (string_bytes word)) words.now }
{
    words.iter().all(|word| is_file(word.as_str()))
}

/// Whether 1 to 32 words name the files of scripts.
pub(crate) fn are_scripts(words: &[String]) -> bool
    ensures scripts { result ≡ are_scripts (map string_bytes words.now) }
    ensures few { result ≡ true → length words.now ≤ 32 }
{
    if words.is_empty() || words.len() > MOST_SCRIPTS {
        return false;
    }
    are_files(words)
}
