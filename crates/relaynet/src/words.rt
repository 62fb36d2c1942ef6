//! What the words of the command line ask for.

ghost use Rattle.std.specs.Prelude.{map, string_bytes};
ghost use Rattle.relaynet.specs.Words.{IsRead};

/// What the program is asked to do; a path is taken from the working folder.
#[derive(Clone, Copy, PartialEq, Eq)]
pub enum Word<'a> {
    /// List the messages of a hex text.
    Decode,
    /// Check the plan of a network, at this path.
    Check(&'a str),
    /// Check a plan, and go through the steps at the second path.
    Replay(&'a str, &'a str),
    /// Run a relay: the path of its configuration, its number, and the folder of its files.
    Relay(&'a str, &'a str, &'a str),
    /// Say the version.
    Version,
}

/// Reads the words, of which the first is the program's own name. `None` where they ask for nothing
/// that there is.
pub fn read_word(words: &[String]) -> Option<Word<'_>>
    ensures { IsRead (map string_bytes words.now) result }
{
    match words {
        [_, word] => {
            if word.as_str() == "decode" {
                return Some(Word::Decode);
            }
            if word.as_str() == "--version" {
                return Some(Word::Version);
            }
        }
        [_, word, net] => {
            if word.as_str() == "check" {
                return Some(Word::Check(net));
            }
        }
        [_, word, net, steps] => {
            if word.as_str() == "replay" {
                return Some(Word::Replay(net, steps));
            }
        }
        [_, word, conf, number, dir] => {
            if word.as_str() == "relay" {
                return Some(Word::Relay(conf, number, dir));
            }
        }
        _ => (),
    }
    None
}
