// What is to be shown, as a line of words: `1=a` is a text with the mark 1, `2:p` an element with the mark 2, behind which stand in
// brackets, parted by commas, the texts in it, `2:p[3=b,4=c]`, and `#5` a child component at the place 5. Behind the name of an
// element stand its attributes, `.0-class=x.1-hidden`, each with its slot, and behind `!` the text that is typed in it, or `checked` or
// `unchecked` for a box. Words with `+` between are one block.
use std::alloc::Global;
use sv_base::{NoMemory, Text};
use sv_list::Items;
use sv_live::{Attributes, Node, Nodes, Own};
use sv_tokens::{Attr, Attribute, Typed};

/// What the words say.
pub fn shape(alloc: Global, words: &str) -> Result<Nodes, NoMemory> {
    let mut nodes = Items::new(alloc);
    for word in words.split_whitespace() {
        nodes.push(block(alloc, word)?)?;
    }
    Ok(nodes)
}

fn block(alloc: Global, word: &str) -> Result<Node, NoMemory> {
    if !word.contains('+') {
        return node(alloc, word);
    }
    let mut parts = Items::new(alloc);
    for part in word.split('+') {
        parts.push(node(alloc, part)?)?;
    }
    Ok(Node::Block { parts })
}

fn node(alloc: Global, word: &str) -> Result<Node, NoMemory> {
    if let Some(place) = word.strip_prefix('#') {
        return Ok(Node::Hole {
            place: number(place),
        });
    }
    match word.split_once(':') {
        Some((mark, rest)) => element(alloc, number(mark), rest),
        None => text(alloc, word),
    }
}

fn text(alloc: Global, word: &str) -> Result<Node, NoMemory> {
    let (mark, shown) = word.split_once('=').unwrap_or((word, ""));
    Ok(Node::Text {
        mark: number(mark),
        text: Text::new(alloc, shown)?,
    })
}

fn element(alloc: Global, mark: u64, word: &str) -> Result<Node, NoMemory> {
    let (head, inside) = word.split_once('[').unwrap_or((word, ""));
    let own = own(alloc, mark, head)?;
    let parts = texts(alloc, inside.trim_end_matches(']'))?;
    Ok(Node::Element { own, parts })
}

fn own(alloc: Global, mark: u64, words: &str) -> Result<Own, NoMemory> {
    let Head {
        name,
        attributes,
        typed,
    } = head_of(alloc, words)?;
    let own = Attributes::of(alloc, attributes.as_slice())?;
    Ok(Own {
        mark,
        name,
        attributes: own,
        typed,
    })
}

/// An element without its mark and what is in it.
#[derive(Drop)]
pub struct Head {
    pub name: Text,
    pub attributes: Items<Attribute>,
    pub typed: Option<Typed>,
}

/// The head of an element.
pub fn head_of(alloc: Global, words: &str) -> Result<Head, NoMemory> {
    let (shown, typed) = match words.split_once('!') {
        Some((shown, typed)) => (shown, Some(typed_as(alloc, typed)?)),
        None => (words, None),
    };
    let (name, rest) = shown.split_once('.').unwrap_or((shown, ""));
    Ok(Head {
        name: Text::new(alloc, name)?,
        attributes: attributes(alloc, rest)?,
        typed,
    })
}

fn typed_as(alloc: Global, word: &str) -> Result<Typed, NoMemory> {
    match word {
        "checked" => Ok(Typed::Checked(true)),
        "unchecked" => Ok(Typed::Checked(false)),
        text => Ok(Typed::Text(Text::new(alloc, text)?)),
    }
}

fn attributes(alloc: Global, words: &str) -> Result<Items<Attribute>, NoMemory> {
    let mut all = Items::new(alloc);
    for word in words.split('.') {
        if !word.is_empty() {
            all.push(attribute(alloc, word)?)?;
        }
    }
    Ok(all)
}

fn attribute(alloc: Global, word: &str) -> Result<Attribute, NoMemory> {
    let (slot, shown) = word.split_once('-').unwrap_or(("", word));
    let slot = slot.parse::<u16>().unwrap_or(0);
    let (name, value) = match shown.split_once('=') {
        Some((name, value)) => (name, Attr::Text(Text::new(alloc, value)?)),
        None => (shown, Attr::Flag),
    };
    Ok(Attribute {
        slot,
        name: Text::new(alloc, name)?,
        value,
    })
}

fn texts(alloc: Global, words: &str) -> Result<Nodes, NoMemory> {
    let mut parts = Items::new(alloc);
    for word in words.split(',') {
        if !word.is_empty() {
            parts.push(text(alloc, word)?)?;
        }
    }
    Ok(parts)
}

/// The number that a word says.
pub fn number(word: &str) -> u64 {
    word.parse::<u64>().unwrap_or(0)
}
