// Worked examples of the waiting line: no places, a full line, many turns round, visits and nodes.
#![tactic(auto)]

#[cfg(test)]
mod tests {
    use line::{Line, Visit};
    use std::test::Fail;

    #[test]
    fn no_places(rt: HostRuntime) {
        let mut line: Line<'_, u8> = Line::new(&mut []);
        assert!(rt; line.is_empty() && line.is_full() && line.capacity() == 0);
        assert!(rt; line.push(1).is_err() && !line.is_waiting(1));
        assert_eq!(rt; line.pop(), None);
    }

    #[test]
    fn full_and_unchanged(rt: HostRuntime) -> Result<(), Fail> {
        let mut places = [0; 2];
        let mut line = Line::new(&mut places);
        line.push(1)?;
        line.push(2)?;
        assert!(rt; line.is_full() && line.push(3).is_err());
        assert!(rt; line.len() == 2 && line.capacity() == 2 && !line.is_waiting(3));
        assert_eq!(rt; line.pop(), Some(1));
        assert_eq!(rt; line.pop(), Some(2));
        assert_eq!(rt; line.pop(), None);
        Ok(())
    }

    // The nodes go round the three places many times.
    #[test]
    fn nodes_in_order(rt: HostRuntime) -> Result<(), Fail> {
        let mut places = [0; 3];
        let mut line = Line::new(&mut places);
        line.push(0)?;
        line.push(1)?;
        for node in 0..100 {
            line.push(node + 2)?;
            assert!(rt; line.is_full() && line.is_waiting(node) && line.is_waiting(node + 2));
            assert_eq!(rt; line.pop(), Some(node));
            assert!(rt; line.len() == 2 && !line.is_waiting(node) && line.is_waiting(node + 2));
        }
        assert_eq!(rt; line.pop(), Some(100));
        Ok(())
    }

    #[test]
    fn visits_past_the_last_place(rt: HostRuntime) -> Result<(), Fail> {
        let [first, second, third] = [
            Visit { node: 4, arc: 9 },
            Visit { node: 5, arc: 255 },
            Visit { node: 6, arc: 0 },
        ];
        let mut places = [first; 2];
        let mut line = Line::new(&mut places);
        line.push(first)?;
        line.push(second)?;
        assert_eq!(rt; line.pop(), Some(first));
        line.push(third)?;
        assert!(rt;
            line.is_waiting(5) && line.is_waiting(6) && !line.is_waiting(4) && !line.is_waiting(255)
        );
        assert_eq!(rt; line.pop(), Some(second));
        assert_eq!(rt; line.pop(), Some(third));
        Ok(())
    }
}
