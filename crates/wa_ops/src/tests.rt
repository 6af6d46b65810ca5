use super::*;
use std::test::Fail;

#[test]
fn the_end_of_every_region(rt: HostRuntime) -> Result<(), Fail> {
    let ops = [
        Op::Block(None),
        Op::Loop(None),
        Op::End,
        Op::End,
        Op::If(None),
        Op::Nop,
        Op::Else,
        Op::End,
        Op::If(None),
        Op::End,
        Op::End,
    ];
    let ends = matching_ends(rt.alloc(), &ops)?;
    assert_eq!(rt;
        ends.as_slice(),
        [3, 2, 0, 0, 6, 0, 7, 0, 9, 0, 0].as_slice()
    );
    Ok(())
}

#[test]
fn forms_at_their_edges(rt: HostRuntime) {
    let rows = [
        (0x27, Form::Other),
        (0x28, Form::Load),
        (0x2A, Form::FloatAccess),
        (0x35, Form::Load),
        (0x36, Form::Store),
        (0x38, Form::FloatAccess),
        (0x3E, Form::Store),
        (0x3F, Form::Other),
        (0x44, Form::FloatConstant),
        (0x45, Form::Number),
        (0x5A, Form::Number),
        (0x5B, Form::FloatNumber),
        (0x67, Form::Number),
        (0x8A, Form::Number),
        (0x8B, Form::FloatNumber),
        (0xA7, Form::Number),
        (0xA8, Form::FloatNumber),
        (0xAD, Form::Number),
        (0xBF, Form::FloatNumber),
        (0xC0, Form::Number),
        (0xC4, Form::Number),
        (0xC5, Form::Other),
    ];
    for (opcode, form) in rows {
        assert_eq!(rt; form_of(opcode), form, "{opcode}");
    }
}

#[test]
fn items_are_a_list(rt: HostRuntime) -> Result<(), Fail> {
    let mut items = Items::from_vec(vec![in rt.alloc(); 7u32, 8]?);
    items.push(9)?;
    assert_eq!(rt; items.as_slice(), [7, 8, 9].as_slice());
    assert_eq!(rt; items.len(), 3);
    assert_eq!(rt; items.into_vec().as_slice(), [7, 8, 9].as_slice());
    assert_eq!(rt; Items::<u32>::new(rt.alloc()).len(), 0);
    assert_eq!(rt; CallNo(3).0, 3);
    Ok(())
}

#[test]
fn calls_by_name(rt: HostRuntime) {
    let rows: [(&[u8], Option<CallNo>); 9] = [
        (b"_g".as_slice(), Some(CallNo(0))),
        (b"accept".as_slice(), Some(CallNo(1))),
        (b"rollback".as_slice(), Some(CallNo(2))),
        (b"".as_slice(), None),
        (b"_".as_slice(), None),
        (b"_g\0".as_slice(), None),
        (b"Accept".as_slice(), None),
        (b"rollbacks".as_slice(), None),
        (b"emit".as_slice(), Some(CallNo(64))),
    ];
    for (name, row) in rows {
        assert_eq!(rt; call_by_name(name), row);
    }
}

#[test]
fn types_of_calls(rt: HostRuntime) {
    let (narrow, wide) = (ValueType::I32, ValueType::I64);
    let guard = [narrow, narrow];
    let ending = [narrow, narrow, wide];
    let mixed = [narrow, narrow, narrow, narrow, narrow, narrow, wide, narrow];
    let last = [narrow, narrow, narrow, narrow];
    let rows: [(CallNo, &[ValueType], ValueType); 5] = [
        (CallNo::GUARD, guard.as_slice(), narrow),
        (CallNo::ACCEPT, ending.as_slice(), wide),
        (CallNo::ROLLBACK, ending.as_slice(), wide),
        (CallNo(22), mixed.as_slice(), wide),
        (CallNo(64), last.as_slice(), wide),
    ];
    for (row, parameters, answer) in rows {
        assert!(rt; call_parameters(row) == parameters);
        assert_eq!(rt; call_answer(row), answer);
    }
}
