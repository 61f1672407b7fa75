use document_forms::WeightsLine;
use rule_reader::{NameTable, read_weight};
use std::alloc::Global;
use wpds_base::OutOfMemory;
use wpds_port::Words;

// What reading a weight answers, over the names a, b and c.
fn answer(alloc: Global, weights: WeightsLine, text: &[u8]) -> Result<String, OutOfMemory> {
    let mut items = NameTable::new(alloc);
    let _ = items.add(b"a")?;
    let _ = items.add(b"b")?;
    let _ = items.add(b"c")?;
    let Some(words) = Words::of(text) else {
        return Ok(format!(in alloc; "no words")?);
    };
    let Some(read) = read_weight(alloc, weights, &items, &words)? else {
        return Ok(format!(in alloc; "no form")?);
    };
    let faults = read.faults;
    if faults.unknown || faults.unlawful || faults.deep {
        return Ok(format!(in alloc;
            "unknown {} unlawful {} deep {}",
            faults.unknown, faults.unlawful, faults.deep
        )?);
    }
    Ok(format!(in alloc; "{:?}", read.value)?)
}

// Whether the weight on each line reads as what stands behind `#` there.
fn each_reads(alloc: Global, weights: WeightsLine, lines: &[u8]) -> Result<bool, OutOfMemory> {
    for line in lines.split(|byte| *byte == b'\n') {
        let mut sides = line.split(|byte| *byte == b'#');
        let text = sides.next();
        let want = sides.next();
        let read = answer(alloc, weights, text.unwrap_or(b"#"))?;
        if Some(read.as_bytes()) != want {
            return Ok(false);
        }
    }
    Ok(true)
}

// Weights, and what lines read as with them.
const ROWS: [(WeightsLine, &[u8]); 5] = [
    (
        WeightsLine::Reach,
        b"one#One
none#Zero
1#no form",
    ),
    (
        WeightsLine::Cost { cap: 9 },
        b"18446744073709551615#Number(18446744073709551615)
18446744073709551616#unknown false unlawful true deep false
1 2#no form",
    ),
    (
        WeightsLine::GenKill,
        b"+a -c#Facts(Sequence { items: [FactSign { fact: 0, plus: true }, FactSign { fact: 2, plus: false }] })
+a -d +a#unknown true unlawful true deep false
#no form",
    ),
    (
        WeightsLine::Copy,
        b"a=? b=undef c=a,b,-7,-7#Forms(Sequence { items: [VariableForm { variable: 0, form: Varying }, VariableForm { variable: 1, form: Meet { constant: None, from: 0 } }, VariableForm { variable: 2, form: Meet { constant: Some(-7), from: 3 } }] })
a=1,2#Forms(Sequence { items: [VariableForm { variable: 0, form: Varying }] })
a=b,#no form
a=9223372036854775808 d=undef,a#unknown true unlawful true deep false
a=-9223372036854775808#Forms(Sequence { items: [VariableForm { variable: 0, form: Meet { constant: Some(-9223372036854775808), from: 0 } }] })",
    ),
    (
        WeightsLine::Relation,
        b"assume a & !b; choose c a; a, b := *, tab2 8 (a, c)#Actions(Sequence { items: [Assume(Expression { held: Parts(Postfix { parts: [Var(0), Var(1), Not, Two(8)] }) }), Choose(Sequence { items: [2, 0] }), Assign(Sequence { items: [Assignment { variable: 0, value: Free }, Assignment { variable: 1, value: Is(Expression { held: Parts(Postfix { parts: [Var(0), Var(2), Two(8)] }) }) }] })] })
a, a := b#unknown false unlawful true deep false
assume tab2 16 (d, a)#unknown true unlawful true deep false
assume a;#no form",
    ),
];

#[test]
fn weights_are_read(rt: HostRuntime) -> Result<(), OutOfMemory> {
    for (weights, lines) in ROWS {
        assert!(rt; each_reads(rt.alloc(), weights, lines)?, "with {weights:?}");
    }
    Ok(())
}
