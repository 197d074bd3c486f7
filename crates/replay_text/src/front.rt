//! Short texts that are written from their ends.
ghost use Rattle.std.specs.Prelude.{◌≡◌, ◌+◌, ◌≤◌, ◌<◌, ◌∷◌, ◌++◌, [], length};
ghost use Rattle.std.specs.Fmt.{decimal};
ghost use Rattle.events.specs.Text.{action_text, address_field, address_text, number_field, pair_text, prefix_text};
ghost use Rattle.replay_text.specs.Fields.{closed, next_close, set_fields};

use itoa::write_digits;
use net_types::{Action, Assign, Ip, Pair, Prefix};
use std::marker::Model;

/// The room of such a text, in octets.
const ROOM: usize = 160;

/// A text that grows at its front: the last digit of a number is known first, so no digit is moved. Contracts see the text.
#[derive(Drop)]
pub struct Front {
    octets: [u8; ROOM],
    from: usize,
}

impl Model for Front {
    ghost use Rattle.std.specs.Prelude.{◌≤◌, List, ℕ, drop};

    ghost Value = { List ℕ };

    ghost view = { λ t. drop t.from t.octets };

    ghost invariant = { λ t. t.from ≤ 160 };
}

impl Front {
    pub fn new() -> Front
        ensures { result ≡ [] }
    {
        Front {
            octets: [0; ROOM],
            from: ROOM,
        }
    }

    /// Takes the text out again, so that another one can be written.
    pub fn clear(&mut self)
        ensures { self.new ≡ [] }
    {
        self.from = ROOM;
    }

    pub fn text(&self) -> &[u8]
        ensures { result.now ≡ self.now }
    {
        &self.octets[self.from..]
    }

    /// Puts a sign in front.
    pub fn sign(&mut self, sign: u8)
        requires { length self.old < 160 }
        ensures { self.new ≡ sign ∷ self.old }
    {
        self.from -= 1;
        self.octets[self.from] = sign;
    }

    /// Puts a word in front.
    pub fn word(&mut self, word: &[u8])
        requires { length word.now + length self.old ≤ 160 }
        ensures { self.new ≡ word.now ++ self.old }
    {
        let end = self.from;
        self.from -= word.len();
        self.octets[self.from..end].copy_from_slice(word);
    }

    /// Puts the decimal digits of a number in front.
    pub fn number(&mut self, number: u64)
        requires { length self.old + 20 ≤ 160 }
        ensures text { self.new ≡ decimal number ++ self.old }
        ensures room { length self.new ≤ length self.old + 20 }
    {
        self.from = write_digits(number, &mut self.octets, self.from);
    }

    /// Puts a number of at most five digits in front.
    fn short(&mut self, number: u16)
        requires { length self.old + 5 ≤ 160 }
        ensures text { self.new ≡ decimal number ++ self.old }
        ensures room { length self.new ≤ length self.old + 5 }
    {
        self.from = write_digits(u64::from(number), &mut self.octets, self.from);
    }

    /// Puts a number of at most three digits in front.
    fn octet(&mut self, number: u8)
        requires { length self.old + 3 ≤ 160 }
        ensures text { self.new ≡ decimal number ++ self.old }
        ensures room { length self.new ≤ length self.old + 3 }
    {
        self.from = write_digits(u64::from(number), &mut self.octets, self.from);
    }

    /// Puts a port and a tag in front.
    pub fn pair(&mut self, pair: Pair)
        requires { length self.old + 41 ≤ 160 }
        ensures text { self.new ≡ pair_text pair ++ self.old }
        ensures room { length self.new ≤ length self.old + 41 }
    {
        self.number(u64::from(pair.tag.0));
        self.sign(b' ');
        self.number(u64::from(pair.port.0));
    }

    /// Puts four numbers with dots between them in front.
    pub fn address(&mut self, ip: Ip)
        requires { length self.old + 15 ≤ 160 }
        ensures text { self.new ≡ address_text ip ++ self.old }
        ensures room { length self.new ≤ length self.old + 15 }
    {
        self.octet((ip.0 % 256) as u8);
        self.sign(b'.');
        self.octet((ip.0 / 256 % 256) as u8);
        self.sign(b'.');
        self.octet((ip.0 / 65536 % 256) as u8);
        self.sign(b'.');
        self.octet((ip.0 / 16777216) as u8);
    }

    /// Puts an address and a length in front.
    pub fn prefix(&mut self, prefix: Prefix)
        requires { length self.old + 19 ≤ 160 }
        ensures text { self.new ≡ prefix_text prefix ++ self.old }
        ensures room { length self.new ≤ length self.old + 19 }
    {
        self.octet(prefix.len);
        self.sign(b'/');
        self.address(prefix.address);
    }

    /// Puts a number with its name and this sign behind it in front, where there is one; gives the sign behind the field before it.
    fn number_field(&mut self, name: &str, number: Option<u16>, close: u8) -> u8
        requires { length name.now + length self.old + 7 ≤ 160 }
        ensures text { self.new ≡ closed close (number_field name.now number) ++ self.old }
        ensures next { result ≡ next_close close (number_field name.now number) }
        ensures room { length self.new ≤ length name.now + length self.old + 7 }
    {
        match number {
            Some(number) => {
                self.sign(close);
                self.short(number);
                self.sign(b'=');
                self.word(name.as_bytes());
                b','
            }
            None => close,
        }
    }

    /// Puts an address with its name and this sign behind it in front, where there is one; gives the sign behind the field before it.
    fn address_field(&mut self, name: &str, ip: Option<Ip>, close: u8) -> u8
        requires { length name.now + length self.old + 17 ≤ 160 }
        ensures text { self.new ≡ closed close (address_field name.now ip) ++ self.old }
        ensures next { result ≡ next_close close (address_field name.now ip) }
        ensures room { length self.new ≤ length name.now + length self.old + 17 }
    {
        match ip {
            Some(ip) => {
                self.sign(close);
                self.address(ip);
                self.sign(b'=');
                self.word(name.as_bytes());
                b','
            }
            None => close,
        }
    }

    /// Puts the set fields and a bracket behind them in front; gives the sign that would stand behind another one.
    fn set_fields(&mut self, set: Assign) -> u8
        requires { length self.old + 72 ≤ 160 }
        ensures text { self.new ≡ closed 93 (set_fields set) ++ self.old }
        ensures next { result ≡ next_close 93 (set_fields set) }
        ensures room { length self.new ≤ length self.old + 72 }
    {
        let close = self.number_field("dstport", set.dport, b']');
        let close = self.number_field("srcport", set.sport, close);
        let close = self.address_field("dstip", set.dst, close);
        self.address_field("srcip", set.src, close)
    }

    /// Puts a port, and in brackets the set fields, in front.
    pub fn action(&mut self, action: Action)
        requires { length self.old + 78 ≤ 160 }
        ensures text { self.new ≡ action_text action ++ self.old }
        ensures room { length self.new ≤ length self.old + 78 }
    {
        let close = self.set_fields(action.set);
        if close == b',' {
            self.sign(b'[');
        }
        self.short(action.port.0);
    }
}
