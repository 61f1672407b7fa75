use document_reader::read_system;
use document_writer::write_system;
use std::alloc::Global;
use wpds_base::OutOfMemory;
use wpds_port::ReadFault;

// Whether the document of a text is written so.
fn writes(alloc: Global, text: &str, written: &str) -> Result<bool, OutOfMemory> {
    match read_system(alloc, text.as_bytes()) {
        Ok(document) => Ok(write_system(alloc, &document)?.is(written.as_bytes())),
        Err(ReadFault::Refused(_)) => Ok(false),
        Err(ReadFault::Memory) => Err(OutOfMemory),
    }
}

// Texts, and how their documents are written: words apart, and each class of names on one line.
const WRITTEN: [(&str, &str); 3] = [
    (
        "# a remark\n wpds  1\nweights reach\ncontrols p\nsymbols a b c\ncontrols q\n\
        rule p a->q b c return plain\nrule p b -> p : one\n\n\
        query p : a { a } a* { b c } * .. * => q :\nrule q c -> p a : none\nquery p: => q:c",
        "wpds 1\nweights reach\ncontrols p q\nsymbols a b c\n\
        rule p a -> q b c\nrule p b -> p\nrule q c -> p a : none\n\
        query p: a a {a}* {b c}* . .* => q:\nquery p: => q: c\n",
    ),
    (
        "wpds 1\nweights copy\ncontrols p\nsymbols a\nvariables x y z\n\
        rule p a -> p : x = ? y = undef z = 5 , y\nrule p a -> p : x = y\nrule p a -> p : x = 1 , 2\n\
        rule p a -> p : z = z , y , -9223372036854775808 , x\nquery p : => p :\n",
        "wpds 1\nweights copy\ncontrols p\nsymbols a\nvariables x y z\n\
        rule p a -> p : x=? y=undef z=5, y\nrule p a -> p : x=y\nrule p a -> p : x=?\n\
        rule p a -> p : z=-9223372036854775808, x, y, z\nquery p: => p:\n",
    ),
    (
        "wpds 1\nweights relation\ncontrols p\nsymbols a\nvariables x y\n\
        rule p a -> p : assume (x => !y) ; choose x y ; x , y := * , tab3 202 ( x , 0 , 1 )\n\
        rule p a -> p a a : x:=y&x return restore x move y=x\nrule p a -> p a a return move x = y\n\
        query p: => p:\n",
        "wpds 1\nweights relation\ncontrols p\nsymbols a\nvariables x y\n\
        rule p a -> p : assume tab2 11 ( x, ! y ) ; choose x y ; x, y := *, tab3 202 ( x, 0, 1 )\n\
        rule p a -> p a a : x := tab2 8 ( y, x ) return restore x move y=x\n\
        rule p a -> p a a return move x=y\nquery p: => p:\n",
    ),
];

// Texts that are written as they are: costs, a call, facts, and a class without names, which has no line.
const AS_THEY_ARE: [&str; 4] = [
    "wpds 1\nweights cost 1000000000\ncontrols p\nsymbols a b\n\
    rule p a -> p b a : 7\nrule p b -> p : 18446744073709551615\nquery p: {a b} => p: .*\n",
    "wpds 1\nweights cost 100\ncontrols p q\nsymbols a b\n\
    rule p a -> p b a : 2\nrule p b -> q : 1\nquery p: a => q: a\n",
    "wpds 1\nweights genkill\ncontrols p\nsymbols a\nfacts x y z\n\
    rule p a -> p : +x -y\nrule p a -> p a a : -z return restore x z\n\
    rule p a -> p a a return restore y\nquery p: a => p:\n",
    "wpds 1\nweights relation\ncontrols p\nquery p: => p: .\n",
];

#[test]
fn documents_are_written(rt: HostRuntime) -> Result<(), OutOfMemory> {
    for (text, written) in WRITTEN {
        assert!(rt; writes(rt.alloc(), text, written)?, "at {text}");
    }
    for text in AS_THEY_ARE {
        assert!(rt; writes(rt.alloc(), text, text)?, "at {text}");
    }
    Ok(())
}
