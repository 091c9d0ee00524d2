// Texts at and beside each limit of the reader.
#![tactic(auto)]

#[cfg(test)]
mod tests {
    use std::alloc::{AllocError, Global};
    use std::process::Abort;
    use std::test::Fail;
    use syntax::program::Shape;
    use syntax::read;
    use syntax::refusal::{Fault, Refusal};
    use syntax::tables::Tables;

    fn refused(rt: &impl Abort, tables: &mut Tables, text: &[u8], fault: Fault, place: usize) {
        assert_eq!(rt; read(text, tables).err(), Some(Refusal { fault, place }));
    }

    fn accepted(rt: &impl Abort, tables: &mut Tables, text: &[u8], subterms: usize) {
        assert!(rt; read(text, tables).is_ok());
        assert_eq!(rt; tables.program.subterms.len(), subterms);
    }

    // What `open`, a middle and `close` make of `levels` doublings of one sign.
    fn doubled(
        heap: Global,
        levels: u32,
        sign: u8,
        open: u8,
        middle: u8,
        close: u8,
    ) -> Result<Vec<u8>, AllocError> {
        let mut text = Vec::new(heap);
        text.push(sign)?;
        for _ in 0..levels {
            let mut next = Vec::new(heap);
            next.push(open)?;
            next.extend_from_slice(&text)?;
            next.push(middle)?;
            next.extend_from_slice(&text)?;
            next.push(close)?;
            text = next;
        }
        Ok(text)
    }

    #[test]
    fn signs(rt: HostRuntime) -> Result<(), Fail> {
        let mut tables = Tables::new(rt.alloc())?;
        let t = &mut tables;
        refused(&rt, t, b"", Fault::WrongSign, 0);
        refused(&rt, t, b" \n ", Fault::WrongSign, 3);
        refused(&rt, t, b"(\\x:N.S x S)", Fault::WrongSign, 11);
        refused(&rt, t, b"3 4", Fault::WrongSign, 2);
        refused(&rt, t, b"\t3", Fault::WrongSign, 0);
        refused(&rt, t, b"in", Fault::WrongSign, 0);
        refused(&rt, t, b"\\let:N.3", Fault::WrongSign, 1);
        refused(&rt, t, b"S abcdefghijklmnopq", Fault::WrongSign, 2);
        refused(&rt, t, b"S abcdefghijklmnop", Fault::Unbound, 2);
        refused(&rt, t, b"S 007", Fault::WrongSign, 2);
        accepted(&rt, t, b"SS3", 3);
        accepted(&rt, t, b"let <x,y> = <\\z:N.z,7> in (x y)", 8);
        Ok(())
    }

    #[test]
    fn numbers(rt: HostRuntime) -> Result<(), Fail> {
        let heap = rt.alloc();
        let mut tables = Tables::new(heap)?;
        let t = &mut tables;
        accepted(&rt, t, b"1000000000", 1);
        refused(&rt, t, b"1000000001", Fault::LargeNumber, 0);
        refused(
            &rt,
            t,
            &Vec::from_elem(heap, b'9', 5000)?,
            Fault::LargeNumber,
            0,
        );
        refused(
            &rt,
            t,
            &Vec::from_elem(heap, b'0', 5000)?,
            Fault::WrongSign,
            0,
        );
        accepted(&rt, t, b"0", 1);
        Ok(())
    }

    #[test]
    fn names(rt: HostRuntime) -> Result<(), Fail> {
        let mut tables = Tables::new(rt.alloc())?;
        let t = &mut tables;
        refused(&rt, t, b"x", Fault::Unbound, 0);
        refused(&rt, t, b"\\x:N.(\\x:N.x x)", Fault::BoundTwice, 7);
        refused(&rt, t, b"\\x:N.<x,x>", Fault::UsedTwice, 8);
        refused(&rt, t, b"\\x:N.3", Fault::Unused, 1);
        refused(&rt, t, b"\\x:N.y", Fault::Unused, 1);
        refused(&rt, t, b"let <x,x> = <1,2> in x", Fault::Unused, 5);
        refused(&rt, t, b"(\\x:N.x x)", Fault::Unbound, 8);
        refused(&rt, t, b"(\\x:N.", Fault::WrongSign, 6);
        accepted(&rt, t, b"\\x:N.x", 2);
        assert!(rt;
            matches!(t.program.subterms.get(0), Some(s) if matches!(s.shape, Shape::Variable(1)))
        );
        Ok(())
    }

    #[test]
    fn depths(rt: HostRuntime) -> Result<(), Fail> {
        let heap = rt.alloc();
        let mut tables = Tables::new(heap)?;
        let t = &mut tables;
        let mut deep = Vec::from_elem(heap, b'S', 127)?;
        deep.push(b'0')?;
        accepted(&rt, t, &deep, 128);
        let mut deeper = Vec::from_elem(heap, b'S', 128)?;
        deeper.push(b'0')?;
        refused(&rt, t, &deeper, Fault::PassedLimit, 128);
        let mut text = Vec::new(heap);
        text.extend_from_slice(b"\\x:")?;
        text.extend_from_slice(&Vec::from_elem(heap, b'(', 63)?)?;
        text.push(b'N')?;
        for _ in 0..63 {
            text.extend_from_slice(b">N)")?;
        }
        text.extend_from_slice(b".x")?;
        accepted(&rt, t, &text, 2);
        text.truncate(66);
        text.extend_from_slice(b"(N")?;
        refused(&rt, t, &text, Fault::PassedLimit, 67);
        Ok(())
    }

    #[test]
    fn counts(rt: HostRuntime) -> Result<(), Fail> {
        let heap = rt.alloc();
        let mut tables = Tables::new(heap)?;
        let t = &mut tables;
        let pairs = doubled(heap, 10, b'0', b'<', b',', b'>')?;
        let mut full = Vec::from_elem(heap, b'S', 1)?;
        full.extend_from_slice(&pairs)?;
        accepted(&rt, t, &full, 2048);
        let mut over = Vec::from_elem(heap, b'S', 2)?;
        over.extend_from_slice(&pairs)?;
        refused(&rt, t, &over, Fault::PassedLimit, 4084);
        let wide = doubled(heap, 10, b'N', b'(', b'>', b')')?;
        let mut text = Vec::new(heap);
        text.extend_from_slice(b"\\x:")?;
        text.extend_from_slice(&wide)?;
        text.extend_from_slice(b".\\y:N.")?;
        let most = text.len();
        text.extend_from_slice(b"<x,y>")?;
        accepted(&rt, t, &text, 5);
        text.truncate(most);
        text.extend_from_slice(b"\\z:N.<x,<y,z>>")?;
        refused(&rt, t, &text, Fault::PassedLimit, 4105);
        Ok(())
    }

    #[test]
    fn lengths(rt: HostRuntime) -> Result<(), Fail> {
        let heap = rt.alloc();
        let mut tables = Tables::new(heap)?;
        let t = &mut tables;
        let mut text = Vec::from_elem(heap, b' ', 16_383)?;
        text.push(b'7')?;
        accepted(&rt, t, &text, 1);
        text.push(b' ')?;
        refused(&rt, t, &text, Fault::TooLong, 0);
        Ok(())
    }
}
