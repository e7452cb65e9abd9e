// The one call of the reader that the program takes in parts.
use kq_read_queries::parse_query;
use kq_read_symbols::{Kind, OperatorWord, Symbol, Word};
use kq_read_tokens::Punctuation;

#[test]
fn a_query_is_parsed_with_ample_memory(rt: HostRuntime) {
    let table = Symbol {
        kind: Kind::Word(Word::Other),
        from: 0,
        to: 1,
    };
    let pipe = Symbol {
        kind: Kind::Punctuation(Punctuation::Pipe),
        from: 2,
        to: 3,
    };
    let count = Symbol {
        kind: Kind::Word(Word::Operator(OperatorWord::Count)),
        from: 4,
        to: 9,
    };
    let query = parse_query(rt.alloc(), &[table, pipe, count], 9);
    assert!(rt; query.is_ok());
}
