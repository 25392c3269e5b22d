//! What no clause of the reader says: that a word is there, and a line's end.
use crate::input::Reader;

// A reader in which a line stands that was read already, and after which nothing is left.
fn reader_over(rt: &HostRuntime, line: &[u8; 6]) -> Reader {
    let mut reader = Reader::new(rt.stdin());
    for (place, byte) in reader.buf.iter_mut().zip(line) {
        *place = *byte;
    }
    reader.end = 6;
    reader.over = true;
    reader
}

#[test]
fn a_first_word_is_read_after_a_fault_too(rt: HostRuntime) {
    for fault in [false, true] {
        let mut reader = reader_over(&rt, b"mot 7\n");
        reader.mark(fault);
        let mut letters = [0u8; 4];
        assert_eq!(rt; reader.first_word(&mut letters), Some(3), "fault {fault}");
        assert_eq!(rt; letters, *b"mot\0");
        assert_eq!(rt; reader.fault, fault);
        assert_eq!(rt;
            reader.count(),
            if fault { None } else { Some(7) },
            "fault {fault}"
        );
    }
}

#[test]
fn a_first_word_that_fills_the_letters_is_a_fault(rt: HostRuntime) {
    let mut reader = reader_over(&rt, b"mot 7\n");
    let mut letters = [0u8; 3];
    assert_eq!(rt; reader.first_word(&mut letters), None);
    assert_eq!(rt; reader.fault, true);
}

#[test]
fn no_first_word_unless_there_is_no_fault(rt: HostRuntime) {
    let mut reader = reader_over(&rt, b"mot 7\n");
    let mut letters = [0u8; 4];
    reader.mark(true);
    assert_eq!(rt; reader.first_word_unless_fault(&mut letters), None);
    reader.mark(false);
    assert_eq!(rt; reader.first_word_unless_fault(&mut letters), Some(3));
}

#[test]
fn a_line_is_ended_after_a_fault_too(rt: HostRuntime) {
    for fault in [false, true] {
        let mut reader = reader_over(&rt, b"\nmot 7");
        reader.mark(fault);
        assert_eq!(rt; reader.end_line(), Some(()), "fault {fault}");
        assert_eq!(rt; reader.at, 1);
        assert_eq!(rt; reader.fault, fault);
        assert_eq!(rt; reader.end_line(), None, "fault {fault}");
        assert_eq!(rt; reader.at, 1);
        assert_eq!(rt; reader.fault, true);
    }
}

#[test]
fn no_line_is_ended_unless_there_is_no_fault(rt: HostRuntime) {
    let mut reader = reader_over(&rt, b"\nmot 7");
    reader.mark(true);
    assert_eq!(rt; reader.end_line_unless_fault(), None);
    assert_eq!(rt; reader.at, 0);
    reader.mark(false);
    assert_eq!(rt; reader.end_line_unless_fault(), Some(()));
    assert_eq!(rt; reader.at, 1);
}
