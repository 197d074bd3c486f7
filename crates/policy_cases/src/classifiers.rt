//! Classifiers made by words, and what they give.

use crate::said::{loc_text, push_assign};
use crate::words::{first_word, port};
use classifier::{Classifier, Results, choose, negate, parallel, sequence, single, test, tighten};
use net_types::{Assign, Cube, Headers, Ip, Loc, Memory, Pid, PortNo, Prefix};
use std::alloc::Global;

fn to_port(port: u16) -> Cube {
    let mut cube = Cube::everything();
    cube.dport = Some(port);
    cube
}

fn by_port(port: u16) -> Cube {
    let mut cube = Cube::everything();
    cube.inport = Some(PortNo(port));
    cube
}

fn from_octet(octet: u8) -> Cube {
    let mut cube = Cube::everything();
    if let Ok(prefix) = Prefix::new(Ip(u32::from_be_bytes([octet, 0, 0, 0])), 8) {
        cube.src = prefix;
    }
    cube
}

fn port_set(port: u16) -> Assign {
    let mut set = Assign::none();
    set.dport = Some(port);
    set
}

fn one(alloc: Global, set: Assign, to: Loc) -> Result<Classifier, Memory> {
    let mut results = Results::new(alloc);
    results.push((set, to))?;
    single(alloc, results)
}

/// Everything goes to port 8080, and leaves by port 6 and by port 5.
fn moves(alloc: Global) -> Result<Classifier, Memory> {
    let mut results = Results::new(alloc);
    results.push((port_set(8080), Loc::Out(PortNo(6))))?;
    results.push((port_set(8080), Loc::Out(PortNo(5))))?;
    single(alloc, results)
}

/// The packet as it is at the ports from 1 to this one.
fn up_to_port(alloc: Global, last: u16) -> Result<Classifier, Memory> {
    let mut all = single(alloc, Results::new(alloc))?;
    for port in 1..=last {
        let one = test(alloc, &to_port(port))?;
        all = parallel(alloc, &all, &one)?;
    }
    Ok(all)
}

/// The classifier of one word. Any other word than these drops.
fn simple(alloc: Global, word: &str) -> Result<Classifier, Memory> {
    let (word, number) = word.split_once('=').unwrap_or((word, ""));
    let number: u16 = number.parse().unwrap_or(0);
    match word {
        "pass" => one(alloc, Assign::none(), Loc::Stay),
        "block" => one(alloc, Assign::none(), Loc::Nowhere),
        "to" => one(alloc, Assign::none(), Loc::To(Pid(number as u32))),
        "out" => one(alloc, Assign::none(), Loc::Out(PortNo(number))),
        "set" => one(alloc, port_set(number), Loc::Stay),
        "moves" => moves(alloc),
        "dport" => test(alloc, &to_port(number)),
        "inport" => test(alloc, &by_port(number)),
        "octet" => test(alloc, &from_octet((number % 256) as u8)),
        "up-to" => up_to_port(alloc, number),
        _ => single(alloc, Results::new(alloc)),
    }
}

/// The classifier of a word for what the one before it made.
fn changed(alloc: Global, word: &str, a: &Classifier) -> Result<Classifier, Memory> {
    match word {
        "negate" => negate(alloc, a),
        _ => tighten(alloc, a),
    }
}

/// The classifier of a word for what the two before it made.
fn joined(alloc: Global, word: &str, a: &Classifier, b: &Classifier) -> Result<Classifier, Memory> {
    match word {
        "parallel" => parallel(alloc, a, b),
        "sequence" => sequence(alloc, a, b),
        _ => choose(alloc, a, b),
    }
}

/// The last of those made so far, or one that drops.
fn taken(alloc: Global, made: &mut Vec<Classifier>) -> Result<Classifier, Memory> {
    match made.pop() {
        Some(last) => Ok(last),
        None => single(alloc, Results::new(alloc)),
    }
}

fn push_made(alloc: Global, made: &mut Vec<Classifier>, word: &str) -> Result<(), Memory> {
    let next = match word {
        "negate" | "tighten" => {
            let last = taken(alloc, made)?;
            changed(alloc, word, &last)?
        }
        "parallel" | "sequence" | "choose" => {
            let second = taken(alloc, made)?;
            let first = taken(alloc, made)?;
            joined(alloc, word, &first, &second)?
        }
        _ => simple(alloc, word)?,
    };
    made.push(next)?;
    Ok(())
}

/// What the words make.
pub fn classifier_of(alloc: Global, text: &str) -> Result<Classifier, Memory> {
    let mut made = Vec::new(alloc);
    for word in text.split(' ') {
        push_made(alloc, &mut made, word)?;
    }
    taken(alloc, &mut made)
}

/// The results of the first rule that has the headers.
pub fn decided<'c>(rules: &'c Classifier, h: &Headers) -> Option<&'c [(Assign, Loc)]> {
    for line in rules.lines() {
        if cube::has(&line.cube, h) {
            return Some(line.results.items());
        }
    }
    None
}

fn results_text(alloc: Global, results: &[(Assign, Loc)]) -> Result<String, Memory> {
    let mut text = String::new(alloc);
    for (set, loc) in results {
        if !text.is_empty() {
            text.push_str("; ")?;
        }
        push_assign(&mut text, set)?;
        text.push_str(loc_text(alloc, *loc)?.as_str())?;
    }
    Ok(text)
}

/// How many rules the words make.
pub fn rules(alloc: Global, text: &str) -> Result<String, Memory> {
    let count = classifier_of(alloc, text)?.lines().len();
    Ok(format!(in alloc; "{count}")?)
}

/// `OCTET PORT WORDS`: the results of the first rule for what comes from OCTET.0.0.0 and goes to the port.
pub fn gives(alloc: Global, text: &str) -> Result<String, Memory> {
    let (octet, rest) = first_word(text);
    let (dport, rest) = first_word(rest);
    let headers = Headers {
        inport: PortNo(1),
        src: Ip(u32::from_be_bytes([octet.parse().unwrap_or(0), 0, 0, 0])),
        dst: Ip(0),
        proto: 6,
        sport: None,
        dport: port(dport),
    };
    let made = classifier_of(alloc, rest)?;
    match decided(&made, &headers) {
        Some([]) => Ok(String::from_str(alloc, "nothing")?),
        Some(results) => results_text(alloc, results),
        None => Ok(String::from_str(alloc, "no rule")?),
    }
}
