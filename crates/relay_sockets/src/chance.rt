//! Random bytes for handshakes.

ghost use Rattle.std.specs.Prelude.{◌≡◌};
ghost use Rattle.rand_core.specs.Stream.{fill_bytes};
ghost use Rattle.relay_sockets.specs.Drawing.{IsDrawn, next_nonce, nonce_length};

use rand::make_rng;
use rand_chacha::ChaCha20Rng;
use rand_core::Rng;
use std::io;
use std::marker::Model;
use std::random::RandomSource;

/// A nonce, or a salt, that was drawn. It serves one handshake: it can't be copied.
#[derive(Drop)]
pub struct Nonce([u8; 16]);

impl Model for Nonce {
    ghost use Rattle.std.specs.Prelude.{List, ℕ};
    ghost use Rattle.relay_sockets.specs.Drawing.{IsDrawn};

    ghost Value = { List ℕ };

    ghost view = { λ n. n.0 };

    ghost invariant = { λ n. IsDrawn n.0 };
}

impl Nonce {
    /// Its bytes, for the handshake.
    pub fn into_bytes(self) -> [u8; 16]
        ensures same { result ≡ self }
        ensures drawn { IsDrawn result }
    {
        let Nonce(bytes) = self;
        bytes
    }
}

/// Nonces and salts, drawn from a generator that the system seeds.
pub struct Nonces {
    rng: ChaCha20Rng,
}

// By hand, so that crates above don't prove again how its parts end.
impl Drop for Nonces {
    fn drop(self) {
        let Nonces { rng: _ } = self;
    }
}

impl Model for Nonces {
    ghost use Rattle.rand_chacha.specs.ChaCha.{ChaCha};

    ghost Value = { ChaCha };

    ghost view = { λ n. n.rng };
}

impl Nonces {
    /// The error is the system's.
    pub fn new(rt: &impl RandomSource) -> io::Result<Nonces> {
        let rng: ChaCha20Rng = make_rng(rt)?;
        Ok(Nonces { rng })
    }

    /// The next one. The generator goes on to what it has left.
    pub fn draw(&mut self) -> Nonce
        ensures drawn { result ≡ next_nonce self.old }
        ensures rest { ⟦<ChaCha20Rng as Rng>⟧.stream self.new
            ≡ (fill_bytes nonce_length (⟦<ChaCha20Rng as Rng>⟧.stream self.old)).1 }
    {
        let mut nonce = [0u8; 16];
        self.rng.fill_bytes(&mut nonce);
        Nonce(nonce)
    }
}
