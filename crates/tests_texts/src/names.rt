use rule_reader::NameTable;
use std::alloc::Global;
use wpds_base::OutOfMemory;
use wpds_port::Text;

// Names of two letters, one after another, in rising order: 256 of them.
fn two_letter_names(alloc: Global) -> Result<Vec<u8>, OutOfMemory> {
    let mut text = Vec::new(alloc);
    for first in b'a'..=b'p' {
        for second in b'a'..=b'p' {
            text.push(first)?;
            text.push(second)?;
        }
    }
    Ok(text)
}

// A table that these names were added to, and how many of them were new.
fn table_of<'t>(alloc: Global, names: &[&'t [u8]]) -> Result<(NameTable<'t>, usize), OutOfMemory> {
    let mut table = NameTable::new(alloc);
    let mut added: usize = 0;
    for name in names {
        if table.add(*name)? {
            added = added.saturating_add(1);
        }
    }
    Ok((table, added))
}

// Whether each of these names is numbered by its place.
fn are_numbered(table: &NameTable<'_>, names: &[&[u8]]) -> bool {
    let mut place: u32 = 0;
    for name in names {
        if table.number_of(*name) != Some(place) {
            return false;
        }
        place = place.saturating_add(1);
    }
    true
}

// Whether the texts are these names.
fn are_names(texts: &[Text], names: &[&[u8]]) -> bool {
    let mut place: usize = 0;
    for name in names {
        if place >= texts.len() || !texts[place].is(*name) {
            return false;
        }
        place = place.saturating_add(1);
    }
    place == texts.len()
}

// Whether each of these names is new, numbered by its place, and comes out there.
fn are_in_order(alloc: Global, names: &[&[u8]]) -> Result<bool, OutOfMemory> {
    let (table, added) = table_of(alloc, names)?;
    let numbered = are_numbered(&table, names);
    let texts = table.into_names(alloc)?;
    Ok(numbered && added == names.len() && are_names(texts.as_slice(), names))
}

// What adding the first names answers, in order: `+` where one is new and `=` where it is there.
// Then the numbers of the other names, with `-` where one is not there.
fn shown(alloc: Global, names: &[u8], asked: &[u8]) -> Result<String, OutOfMemory> {
    let mut table = NameTable::new(alloc);
    let mut text = String::new(alloc);
    for name in names.split(|byte| *byte == b' ') {
        text.push(if table.add(name)? { '+' } else { '=' })?;
    }
    push_numbers(alloc, &mut text, &table, asked)?;
    Ok(text)
}

fn push_numbers(
    alloc: Global,
    text: &mut String,
    table: &NameTable<'_>,
    asked: &[u8],
) -> Result<(), OutOfMemory> {
    for name in asked.split(|byte| *byte == b' ') {
        match table.number_of(name) {
            Some(number) => text.push_str(format!(in alloc; "{number}")?.as_str())?,
            None => text.push('-')?,
        }
    }
    Ok(())
}

// How many names a table has, and how many come out.
fn lens(alloc: Global, names: &[&[u8]]) -> Result<(usize, usize), OutOfMemory> {
    let (table, _added) = table_of(alloc, names)?;
    let len = table.len();
    Ok((len, table.into_names(alloc)?.len()))
}

// Names that are added, names that are asked for, and what is shown of both: a name keeps its first number, and a prefix is
// another name.
const SHOWN: [(&[u8], &[u8], &str); 3] = [
    (b"start end start middle", b"start end middle", "++=+012"),
    (b"main", b"mai main1 main", "+--0"),
    (b"main mai", b"mai main", "++10"),
];

#[test]
fn names_have_their_numbers(rt: HostRuntime) -> Result<(), OutOfMemory> {
    for (names, asked, text) in SHOWN {
        assert_eq!(rt; shown(rt.alloc(), names, asked)?.as_str(), text);
    }
    let none = NameTable::new(rt.alloc());
    assert!(rt; none.number_of(b"").is_none() && none.number_of(b"p").is_none());
    let rows: [(&[&[u8]], (usize, usize)); 2] = [
        (&[], (0, 0)),
        (&[b"start", b"end", b"start", b"middle"], (3, 3)),
    ];
    for (names, counts) in rows {
        assert_eq!(rt; lens(rt.alloc(), names)?, counts);
    }
    Ok(())
}

#[test]
fn many_names_are_numbered_in_order(rt: HostRuntime) -> Result<(), OutOfMemory> {
    let text = two_letter_names(rt.alloc())?;
    let mut names = Vec::new(rt.alloc());
    for name in text.chunks(2) {
        names.push(name)?;
    }
    assert!(rt; names.len() == 256 && are_in_order(rt.alloc(), &names)?);
    names.reverse();
    assert!(rt; are_in_order(rt.alloc(), &names)?);
    Ok(())
}
