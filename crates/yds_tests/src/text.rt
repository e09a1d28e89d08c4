//! One table: the places and texts of a small input, and what fields spell.
ghost use Rattle.std.specs.Prelude.{◌≤◌, length};

use std::test::Fail;
use yds_text::{Field, NumberFault, lines, mixed, name, number, number_from};

fn field(text: &[u8]) -> Field<'_>
    requires { length text.now ≤ 100 }
{
    Field {
        text,
        line: 1,
        column: 1,
    }
}

#[test]
fn lines_and_fields_of_a_small_input(rt: HostRuntime) -> Result<(), Fail> {
    let mut places = vec![in rt.alloc()]?;
    for line in lines(b"job a\t 7\r\n\n # x") {
        for field in line.fields() {
            places.push((field.line, field.column, field.text))?;
        }
    }
    let expected = [
        (1, 1, b"job".as_slice()),
        (1, 5, b"a".as_slice()),
        (1, 8, b"7".as_slice()),
        (3, 2, b"#".as_slice()),
        (3, 4, b"x".as_slice()),
    ];
    assert_eq!(rt; places.as_slice(), expected.as_slice());
    let silent = lines(b" \n\t# x\nx #\n")
        .filter(|line| line.is_comment())
        .count();
    assert_eq!(rt; silent, 2);
    Ok(())
}

#[test]
fn what_fields_spell(rt: HostRuntime) {
    assert_eq!(rt; number(field(b"120"), 120), Ok(120));
    assert_eq!(rt; number(field(b"007"), 120), Err(NumberFault::BadNumber));
    assert_eq!(rt;
        number_from(field(b"0"), 1, 9),
        Err(NumberFault::OutOfRange)
    );
    assert_eq!(rt;
        number(field(b"18446744073709551616"), u64::MAX),
        Err(NumberFault::OutOfRange)
    );
    let third = mixed(field(b"2+1/3"), 9).map(|value| (value.whole(), value.num(), value.den()));
    assert_eq!(rt; third, Ok((2, 1, 3)));
    let one = mixed(field(b"1+3/3"), 9).map(|value| (value.whole(), value.num(), value.den()));
    assert_eq!(rt; one, Err(NumberFault::OutOfRange));
    assert_eq!(rt; name(field(b"a_1")), Some("a_1"));
    assert_eq!(rt; name(field(b"")), None);
}

#[test]
fn plain_fields_are_read_as_they_stand(rt: HostRuntime) {
    for line in lines(b" a_1 12 3+1/4 0\n") {
        let mut fields = line.fields();
        assert_eq!(rt; fields.plain_name(), Some("a_1"));
        let mut again = fields.again();
        assert_eq!(rt; fields.plain_number(1, 12), Some(12));
        let value = fields
            .plain_fraction(9)
            .map(|value| (value.whole(), value.num(), value.den()));
        assert_eq!(rt; value, Some((3, 1, 4)));
        assert_eq!(rt; fields.plain_small(0, 9), Some(0));
        assert_eq!(rt; fields.at_end(), true);
        assert_eq!(rt; again.plain_small(13, 99), None);
    }
}
