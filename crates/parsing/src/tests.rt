use crate::error::ReadError;
use crate::list::{numbers_of, plan_of};
use crate::number::number_of;
use crate::pairs::pairs;
use crate::script::script;
use crate::text::{characters, numbers};
use font::refusal::Refusal;
use paragraph::calls::Call;
use std::test::Fail;

#[test]
fn plans_and_places(rt: HostRuntime) -> Result<(), Fail> {
    let plan = plan_of("0,3=2,010=007").ok_or("a plan")?;
    let plan = plan.items();
    assert_eq!(rt; plan.len(), 3);
    assert_eq!(rt; (plan[0].lookup, plan[0].alternate), (0, 1));
    assert_eq!(rt; (plan[1].lookup, plan[1].alternate), (3, 2));
    assert_eq!(rt; (plan[2].lookup, plan[2].alternate), (10, 7));
    assert_eq!(rt; plan_of("").ok_or("an empty plan")?.items().len(), 0);
    assert_eq!(rt; plan_of("0,").is_none(), true);
    assert_eq!(rt; plan_of("1=2=3").is_none(), true);
    assert_eq!(rt; plan_of("65536").is_none(), true);
    let mut places = [1, 2, 3];
    assert_eq!(rt; numbers_of("4,9", &mut places), Some(2));
    assert_eq!(rt; places.as_slice(), [4, 9, 3].as_slice());
    assert_eq!(rt; numbers_of("5,6,7,8", &mut places), Some(4));
    assert_eq!(rt; places.as_slice(), [5, 6, 7].as_slice());
    assert_eq!(rt; numbers_of("1,x", &mut places), None);
    assert_eq!(rt; numbers_of("", &mut places), Some(0));
    assert_eq!(rt; places.as_slice(), [5, 6, 7].as_slice());
    assert_eq!(rt; number_of("+4"), None);
    Ok(())
}

#[test]
fn lines_of_files(rt: HostRuntime) -> Result<(), Fail> {
    assert_eq!(rt;
        characters(rt.alloc(), b"f\xC3\xA9\n\n")?.as_slice(),
        [102, 233, 10].as_slice()
    );
    assert_eq!(rt;
        numbers(rt.alloc(), b"102\r\n7\n")?.as_slice(),
        [102, 7].as_slice()
    );
    assert_eq!(rt;
        numbers(rt.alloc(), b"102\n\n7").err(),
        Some(ReadError::Line(2))
    );
    assert_eq!(rt;
        numbers(rt.alloc(), b"\xE9").err(),
        Some(ReadError::NotUtf8)
    );
    Ok(())
}

#[test]
fn stand_in_pairs(rt: HostRuntime) -> Result<(), Fail> {
    let mut bytes = [0; 132];
    for (i, place) in bytes.iter_mut().enumerate() {
        *place = b"1\t2\n"[i % 4];
    }
    let table = pairs(bytes.get(..128).unwrap_or(&[]))?;
    let read = table.pairs();
    assert_eq!(rt; read.len(), 32);
    assert_eq!(rt; (read[31].character, read[31].stand_in), (1, 2));
    let over = ReadError::Refused(Refusal::TooManyPairs);
    assert_eq!(rt; pairs(&bytes).err(), Some(over));
    bytes[128] = b'x';
    assert_eq!(rt; pairs(&bytes).err(), Some(ReadError::Line(33)));
    Ok(())
}

#[test]
fn a_script(rt: HostRuntime) -> Result<(), Fail> {
    let calls = script(rt.alloc(), b"shape\nline 0 12\npay 1\nwaive 2\nclear\n")?;
    assert_eq!(rt;
        calls.as_slice(),
        [
            Call::Shape(()),
            Call::Line { a: 0, b: 12 },
            Call::Pay { slip: 1 },
            Call::Waive { slip: 2 },
            Call::Clear,
        ]
        .as_slice()
    );
    assert_eq!(rt;
        script(rt.alloc(), b"shape\nline 0  12\n").err(),
        Some(ReadError::Line(2))
    );
    assert_eq!(rt;
        script(rt.alloc(), b"shape \n").err(),
        Some(ReadError::Line(1))
    );
    assert_eq!(rt;
        script(rt.alloc(), b"clear 1\n").err(),
        Some(ReadError::Line(1))
    );
    Ok(())
}
