//! Prints how much the document on standard input says, or why it is refused. Nothing else is done with it, so that time
//! and memory of the reading alone are measured from outside; `tools/reader-documents` writes documents at the limits.
#![tactic(auto)]

use anyhow::bail;
use document_forms::Document;
use document_reader::read_system;
use wpds_base::Sequence;
use wpds_port::{ReadFault, StdSource, Text, read_up_to};

// One byte more than a document has at most.
const LIMIT: usize = 4_194_305;

fn print_counts(rt: &impl Print, document: &Document<Sequence<Text>>) -> anyhow::Result<()> {
    println!(rt;
        "{} controls, {} symbols, {} items, {} rules, {} queries",
        document.controls.len(),
        document.symbols.len(),
        document.items.len(),
        document.rules.len(),
        document.queries.len()
    )?;
    Ok(())
}

fn main(rt: HostRuntime) -> anyhow::Result<()> {
    let mut source = StdSource::new(rt.stdin());
    let input = read_up_to(rt.alloc(), &mut source, LIMIT)?;
    match read_system(rt.alloc(), &input) {
        Ok(document) => print_counts(&rt, &document),
        Err(ReadFault::Refused(refusal)) => {
            println!(rt; "{refusal}")?;
            Ok(())
        }
        Err(ReadFault::Memory) => bail!("out of memory"),
    }
}
