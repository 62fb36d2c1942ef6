//! Texts that come without an end.

use plan_answers::{run_check, run_replay};
use program_text::{CountedRead, Open, Status};
use std::alloc::Global;
use std::io;
use std::io::ErrorKind;
use stream_listing::run_decode;

const PLAN: &str = "relay 1 127.0.0.1 one one.conf
client 1 24224 **
label 1 . **
reach 1 . 0 **
";

const CONF: &str = "<source>
  @type forward
</source>
<match **>
  @type file
  path all
  <buffer>
    @type file
    path store
    retry_forever true
  </buffer>
</match>
";

// One configuration, and nothing else.
struct OneText;

impl Open for OneText {
    ghost use Rattle.std.specs.Prelude.{None};

    ghost text_of = { λ _ _. None };

    type Reader = Text;

    fn open(&self, name: &str) -> io::Result<Text> {
        if name == "one.conf" {
            return Ok(Text {
                rest: CONF.as_bytes(),
            });
        }
        Err(io::Error::from(ErrorKind::NotFound))
    }
}

// Gives a text in one piece after another.
#[derive(Drop)]
struct Text {
    rest: &'static [u8],
}

impl CountedRead for Text {
    fn read(&mut self, piece: &mut [u8]) -> io::Result<usize> {
        self.rest.read(piece)
    }
}

// Gives one space for ever.
#[derive(Drop)]
struct Endless {
    calls: u64,
}

impl CountedRead for Endless {
    ghost calls = { λ endless. endless.calls };

    fn read(&mut self, piece: &mut [u8]) -> io::Result<usize> {
        self.calls = self.calls.saturating_add(1);
        match piece.first_mut() {
            Some(byte) => {
                *byte = b' ';
                Ok(1)
            }
            None => Ok(0),
        }
    }
}

// Configurations that don't end.
struct EndlessTexts;

impl Open for EndlessTexts {
    ghost use Rattle.std.specs.Prelude.{None};

    ghost text_of = { λ _ _. None };

    type Reader = Endless;

    fn open(&self, _name: &str) -> io::Result<Endless> {
        Ok(Endless { calls: 0 })
    }
}

// What a reader that doesn't end gives: it is called so often, and no more.
fn was_left(text: &Endless) -> bool {
    text.calls == 16_777_216
}

// Whether this is printed, and the status is that of a usage.
fn ends_so(out: &[u8], status: Status, printed: &[u8]) -> bool {
    out == printed && matches!(status, Status::Usage)
}

fn leaves_a_plan(alloc: Global) -> bool {
    let mut out = Vec::new(alloc);
    let mut plan = Endless { calls: 0 };
    let status = run_check(alloc, &mut plan, &OneText, &mut out);
    ends_so(&out, status, b"fault read\n") && was_left(&plan)
}

#[test]
fn a_plan_without_an_end_is_not_read(rt: HostRuntime) {
    assert!(rt; leaves_a_plan(rt.alloc()));
}

fn leaves_a_configuration(alloc: Global) -> bool {
    let mut out = Vec::new(alloc);
    let status = run_check(alloc, &mut PLAN.as_bytes(), &EndlessTexts, &mut out);
    ends_so(&out, status, b"fault read\n")
}

#[test]
fn a_configuration_without_an_end_is_not_read(rt: HostRuntime) {
    assert!(rt; leaves_a_configuration(rt.alloc()));
}

fn leaves_white_space(alloc: Global) -> bool {
    let mut out = Vec::new(alloc);
    let mut text = Endless { calls: 0 };
    let status = run_decode(alloc, &mut text, &mut out);
    ends_so(&out, status, b"fault read\n") && was_left(&text)
}

// White space alone is no byte: it is passed over for as long as it is read.
#[test]
fn white_space_without_an_end_is_not_read(rt: HostRuntime) {
    assert!(rt; leaves_white_space(rt.alloc()));
}

fn leaves_steps(alloc: Global) -> bool {
    let mut out = Vec::new(alloc);
    let mut steps = Endless { calls: 0 };
    let status = run_replay(alloc, &mut PLAN.as_bytes(), &mut steps, &OneText, &mut out);
    ends_so(&out, status, b"yes\nfault read\n") && was_left(&steps)
}

#[test]
fn steps_without_an_end_are_not_read(rt: HostRuntime) {
    assert!(rt; leaves_steps(rt.alloc()));
}
