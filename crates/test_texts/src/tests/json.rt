//! Generated JSON texts (RFC 8259), each with the value that it was generated from.
use super::dumping::{is_read_as, loads_back_in_all};
use std::alloc::Global;
use std::test::Fail;
use yaml_rust2::yaml::{Array, Hash, Yaml};

const GAPS: [&str; 8] = ["", "", "", " ", "  ", "\n", "\r\n ", "\n\t "];

// A raw character, or an escape, and what it stands for.
const PIECES: [(&str, &str); 24] = [
    ("a", "a"),
    ("B", "B"),
    (" ", " "),
    ("# ", "# "),
    (": ", ": "),
    ("- ", "- "),
    (",", ","),
    ("]", "]"),
    ("'", "'"),
    ("%", "%"),
    ("\u{e9}", "\u{e9}"),
    ("\u{85}", "\u{85}"),
    ("\u{2028}", "\u{2028}"),
    ("\u{1F600}", "\u{1F600}"),
    ("\\\"", "\""),
    ("\\\\", "\\"),
    ("\\/", "/"),
    ("\\b", "\u{8}"),
    ("\\f", "\u{c}"),
    ("\\n", "\n"),
    ("\\r", "\r"),
    ("\\t", "\t"),
    ("\\u00e9", "\u{e9}"),
    ("\\uFFFD", "\u{fffd}"),
];

const REALS: [&str; 7] = [
    "9223372036854775808",
    "-9223372036854775809",
    "1.5",
    "-0.25",
    "1e400",
    "2E+3",
    "-1.25e-7",
];

#[derive(Drop)]
struct Maker {
    alloc: Global,
    seed: u64,
    text: String,
}

impl Maker {
    fn next(&mut self) -> usize {
        self.seed = self
            .seed
            .wrapping_mul(6364136223846793005)
            .wrapping_add(1442695040888963407);
        usize::try_from(self.seed >> 33).unwrap_or(0)
    }

    fn gap(&mut self) -> Result<(), Fail> {
        let gap = GAPS[self.next() % 8];
        self.text.push_str(gap)?;
        Ok(())
    }

    // A string, which ends in a mark.
    fn string(&mut self, mark: &str) -> Result<String, Fail> {
        let mut value = String::new(self.alloc);
        self.text.push('"')?;
        for _ in 0..self.next() % 6 {
            let (written, meant) = PIECES[self.next() % 24];
            self.text.push_str(written)?;
            value.push_str(meant)?;
        }
        self.text.push_str(mark)?;
        value.push_str(mark)?;
        self.text.push('"')?;
        Ok(value)
    }

    fn integer(&mut self) -> Result<Yaml, Fail> {
        let half = i64::try_from(self.next()).unwrap_or(7);
        let value = match self.next() % 4 {
            0 => 0,
            1 => half,
            2 => 0i64.wrapping_sub(half),
            _ => i64::MIN,
        };
        self.text
            .push_str(format!(in self.alloc; "{value}")?.as_str())?;
        Ok(Yaml::Integer(value))
    }

    fn word(&mut self, word: &str, value: Yaml) -> Result<Yaml, Fail> {
        self.text.push_str(word)?;
        Ok(value)
    }

    fn scalar(&mut self) -> Result<Yaml, Fail> {
        match self.next() % 7 {
            0 => self.word("true", Yaml::Boolean(true)),
            1 => self.word("false", Yaml::Boolean(false)),
            2 => self.word("null", Yaml::Null),
            3 => {
                let real = REALS[self.next() % 7];
                let own = String::from_str(self.alloc, real)?;
                self.word(real, Yaml::Real(own))
            }
            4 => self.integer(),
            _ => Ok(Yaml::String(self.string("")?)),
        }
    }

    #[cycle(value)]
    fn array(&mut self, depth: u8) -> Result<Yaml, Fail> {
        let mut items = Array::new(self.alloc);
        self.text.push('[')?;
        self.gap()?;
        for i in 0..self.next() % 5 {
            if i > 0 {
                self.text.push(',')?;
                self.gap()?;
            }
            items.push(self.value(depth)?)?;
            self.gap()?;
        }
        self.text.push(']')?;
        Ok(Yaml::Array(items))
    }

    #[cycle(value)]
    fn object(&mut self, depth: u8) -> Result<Yaml, Fail> {
        let mut pairs = Hash::new(self.alloc);
        self.text.push('{')?;
        self.gap()?;
        for i in 0..self.next() % 5 {
            if i > 0 {
                self.text.push(',')?;
                self.gap()?;
            }
            let mark = format!(in self.alloc; "{i}")?;
            let key = Yaml::String(self.string(mark.as_str())?);
            self.gap()?;
            self.text.push(':')?;
            self.gap()?;
            let value = self.value(depth)?;
            let _ = pairs.insert(key, value).map_err(|_| "no memory")?;
            self.gap()?;
        }
        self.text.push('}')?;
        Ok(Yaml::Hash(pairs))
    }

    #[cycle(value)]
    fn value(&mut self, depth: u8) -> Result<Yaml, Fail> {
        match (depth, self.next() % 3) {
            (0, _) | (_, 0) => self.scalar(),
            (_, 1) => self.array(depth - 1),
            _ => self.object(depth - 1),
        }
    }
}

impl Maker {
    fn new(alloc: Global, seed: u64) -> Maker {
        Maker {
            alloc,
            seed,
            text: String::new(alloc),
        }
    }
}

// Whether the text that is made from a seed loads as its value.
fn is_read_as_made(alloc: Global, seed: u64) -> Result<bool, Fail> {
    let mut maker = Maker::new(alloc, seed);
    maker.gap()?;
    let want = maker.value(5)?;
    maker.gap()?;
    Ok(is_read_as(alloc, maker.text.as_str(), &want))
}

#[test]
fn made_texts_load_as_their_values(rt: HostRuntime) -> Result<(), Fail> {
    for seed in 0..2000 {
        assert!(rt; is_read_as_made(rt.alloc(), seed)?, "seed {seed}");
    }
    Ok(())
}

// A made tree as the value of another.
fn pair(maker: &mut Maker) -> Result<Yaml, Fail> {
    let key = maker.value(2)?;
    let value = maker.value(4)?;
    let mut pairs = Hash::new(maker.alloc);
    let _ = pairs.insert(key, value).map_err(|_| "no memory")?;
    Ok(Yaml::Hash(pairs))
}

#[test]
fn dumps_of_made_trees_load_back(rt: HostRuntime) -> Result<(), Fail> {
    for seed in 0..500 {
        let tree = Maker::new(rt.alloc(), seed).value(4)?;
        assert!(rt; loads_back_in_all(rt.alloc(), &tree)?, "seed {seed}");
    }
    Ok(())
}

#[test]
fn dumps_of_made_pairs_load_back(rt: HostRuntime) -> Result<(), Fail> {
    for seed in 0..500 {
        let tree = pair(&mut Maker::new(rt.alloc(), seed))?;
        assert!(rt; loads_back_in_all(rt.alloc(), &tree)?, "seed {seed}");
    }
    Ok(())
}
