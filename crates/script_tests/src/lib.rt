//! Example scripts, and what check says of each.
#![tactic(auto)]

#[cfg(test)]
mod check_tests {
    use message::kind::Message;
    use message::literal::LiteralFault;
    use message::ticket::Ticket;
    use message::weight::Weight;
    use script::check::{Text, check as check_script};
    use script::checked::Checked;
    use script::fault::{Fault, MessageFault};
    use std::alloc::{AllocError, Global};
    use std::test::Fail;

    // Nothing of an accepted script, and the number and the place of a refusal.
    fn verdict<M: Message>(heap: Global, text: &[u8]) -> Result<(), (u32, usize)> {
        let mut table: Checked<M> = Checked::new(heap);
        check_script(heap, Text::new(text), &mut table).map_err(|fault| (
            fault.number(),
            fault.place(),
        ))
    }

    // The front, the piece so many times, and the back.
    fn repeated(
        heap: Global,
        front: &[u8],
        piece: &[u8],
        times: usize,
        back: &[u8],
    ) -> Result<Vec<u8>, AllocError> {
        let mut text = Vec::new(heap);
        text.extend_from_slice(front)?;
        for _ in 0..times {
            text.extend_from_slice(piece)?;
        }
        text.extend_from_slice(back)?;
        Ok(text)
    }

    #[test]
    fn accepted_scripts(rt: HostRuntime) {
        let scripts: [&[u8]; 9] = [
            b"(task 0)",
            b"(task 0(emit)(again))",
            b" (task\t0\n(spawn 1)) (task 1)\r\n",
            b"(task 31)(task 0)",
            b"(channel 15)(task 0(sync(send 15)))",
            b"(task 0(sync(timeout 86400000)))",
            b"(task 0(sync(wrap(never)(add 2147483647))))",
            b"(task 0(sync(wrap(never)(add -2147483648))))",
            b"(task 0(sync(guard neg(always -7)(nack))))",
        ];
        for text in scripts {
            assert_eq!(rt; verdict::<Weight>(rt.alloc(), text), Ok(()));
        }
    }

    #[test]
    fn misfits(rt: HostRuntime) {
        let scripts: [(&[u8], (u32, usize)); 15] = [
            (b"", (4, 0)),
            (b"  ", (4, 2)),
            (b")", (4, 0)),
            (b"task", (4, 0)),
            (b"(task 0", (4, 7)),
            (b"(task 0))", (4, 8)),
            (b"(task 0)(mailbox 1)", (4, 9)),
            (b"(task -0)", (4, 6)),
            (b"(task 01)", (4, 6)),
            (b"(task +1)", (4, 6)),
            (b"(task x)", (4, 6)),
            (b"(task ()", (4, 6)),
            (b"(task 0(always 5))", (4, 8)),
            (b"(task 0(sync(guard plus(never)(never))))", (4, 19)),
            (b"(task 99(bogus))", (4, 9)),
        ];
        for (text, want) in scripts {
            assert_eq!(rt; verdict::<Weight>(rt.alloc(), text), Err(want));
        }
    }

    #[test]
    fn ranges_and_names(rt: HostRuntime) {
        let scripts: [(&[u8], (u32, usize)); 14] = [
            (b"(task 32)(task 0)", (5, 6)),
            (b"(channel 16)(task 0)", (5, 9)),
            (b"(channel -1)(task 0)", (5, 9)),
            (b"(task 0(sync(timeout 86400001)))", (5, 21)),
            (b"(task 0(sync(wrap(never)(add 2147483648))))", (5, 29)),
            (b"(task 0(sync(wrap(never)(add -2147483649))))", (5, 29)),
            (b"(task 0)(task 0)", (6, 14)),
            (b"(channel 1)(mailbox 1)(task 0)", (6, 20)),
            (b"(task 0(spawn 1))", (6, 14)),
            (b"(task 0(sync(send 3)))", (6, 18)),
            (b"(task 1)", (6, 8)),
            (b"(task 0(sync(always x))(spawn 40))", (5, 30)),
            (b"(task 0(sync(always x))(spawn 9))", (6, 30)),
            (b"(task 1(spawn 2)(spawn 3))", (6, 14)),
        ];
        for (text, want) in scripts {
            assert_eq!(rt; verdict::<Weight>(rt.alloc(), text), Err(want));
        }
    }

    #[test]
    fn literals(rt: HostRuntime) {
        let scripts: [(&[u8], (u32, usize)); 3] = [
            (b"(task 0(sync(always 2147483648)))", (8, 20)),
            (b"(task 0(sync(always nack)))", (8, 20)),
            (b"(task 0(sync(wrap(never)(set 1/2))))", (8, 29)),
        ];
        for (text, want) in scripts {
            assert_eq!(rt; verdict::<Weight>(rt.alloc(), text), Err(want));
        }
    }

    // So many pieces are accepted, and one more is refused at its bracket.
    #[test]
    fn limits(rt: HostRuntime) -> Result<(), Fail> {
        let heap = rt.alloc();
        let limits: [(&[u8], &[u8], usize, &[u8], usize); 4] = [
            (b"(task 0", b"(emit)", 64, b")", 391),
            (b"(task 0(sync(choose", b"(never)", 1023, b")))", 7180),
            (b"(task 0(sync(choose", b"(nack)", 16, b")))", 115),
            (
                b"(task 0(sync(choose",
                b"(with-nack 0(never))",
                4,
                b")))",
                99,
            ),
        ];
        for (front, piece, most, back, place) in limits {
            let full = repeated(heap, front, piece, most, back)?;
            assert_eq!(rt; verdict::<Weight>(heap, &full), Ok(()));
            let over = repeated(heap, front, piece, most.saturating_add(1), back)?;
            assert_eq!(rt; verdict::<Weight>(heap, &over), Err((7, place)));
        }
        Ok(())
    }

    #[test]
    fn many_digits(rt: HostRuntime) -> Result<(), Fail> {
        let text = repeated(rt.alloc(), b"(channel 1", b"0", 3000, b")(task 0)")?;
        assert_eq!(rt; verdict::<Weight>(rt.alloc(), &text), Err((5, 9)));
        Ok(())
    }

    #[test]
    fn tickets(rt: HostRuntime) {
        let text = b"(task 0(sync(always 5/-6)))";
        assert_eq!(rt; verdict::<Ticket>(rt.alloc(), text), Ok(()));
        assert_eq!(rt; verdict::<Weight>(rt.alloc(), text), Err((8, 20)));
    }

    // A literal's own fault comes with the refusal.
    #[test]
    fn inner_fault(rt: HostRuntime) {
        let heap = rt.alloc();
        let mut table: Checked<Weight> = Checked::new(heap);
        let fault = LiteralFault { at: 1 };
        assert_eq!(rt;
            check_script(heap, Text::new(b"(task 0(sync(always -0)))"), &mut table),
            Err(Fault::Message(MessageFault::InScript { at: 20, fault }))
        );
    }

    fn is_accepted(heap: Global, text: &[u8], table: &mut Checked<Weight>) -> bool {
        check_script(heap, Text::new(text), table).is_ok()
    }

    // The table has what was accepted, and after a refusal `(task 0)`.
    #[test]
    fn tables(rt: HostRuntime) {
        let heap = rt.alloc();
        let mut table: Checked<Weight> = Checked::new(heap);
        assert!(rt; table.text() == b"(task 0)".as_slice());
        let script: &[u8] = b"(mailbox 3)(task 0(emit))";
        assert!(rt; is_accepted(heap, script, &mut table));
        assert!(rt; table.text() == script);
        assert!(rt; !is_accepted(heap, b"(task 7)", &mut table));
        assert!(rt; table.text() == b"(task 0)".as_slice());
    }
}

#[cfg(test)]
mod parse_tests {
    use grammar::form::{FormFault, ParseFault, parse, parts};
    use std::test::Fail;
    use tokens::token::tokens;

    // A script has the same parts by its text and by its tokens.
    #[test]
    fn same_parts(rt: HostRuntime) -> Result<(), Fail> {
        let scripts: [&[u8]; 3] = [
            b"(task 0)",
            b" (task\t0\n(spawn 1)) (task 1)\r\n",
            b"(channel 1)(task 0(sync(choose(send 1)(wrap(recv 1)(set 7)))))",
        ];
        for text in scripts {
            let tokens = tokens(rt.alloc(), text)?;
            let by_tokens = parts(rt.alloc(), &tokens).expect(&rt, "a script by its tokens");
            let by_text = parse(rt.alloc(), text).expect(&rt, "a script by its text");
            assert_eq!(rt; by_text.as_slice(), by_tokens.as_slice());
        }
        Ok(())
    }

    // What is no script stops at the same token: by its number, and by its place.
    #[test]
    fn same_misfits(rt: HostRuntime) -> Result<(), Fail> {
        let texts: [(&[u8], usize, usize); 3] = [
            (b"(task 0(always 5))", 4, 8),
            (b"(task 0", 3, 7),
            (b"  ", 0, 2),
        ];
        for (text, token, at) in texts {
            let tokens = tokens(rt.alloc(), text)?;
            assert_eq!(rt;
                parts(rt.alloc(), &tokens).err(),
                Some(FormFault::Misfit { token })
            );
            assert_eq!(rt;
                parse(rt.alloc(), text).err(),
                Some(ParseFault::Misfit { at })
            );
        }
        Ok(())
    }
}
