//! Example texts, what is said of each, and its tokens.
#![tactic(auto)]

#[cfg(test)]
mod text_tests {
    use tokens::text::check_text;

    // A refusal by its number and place.
    fn verdict(text: &[u8]) -> Result<(), (u32, usize)> {
        check_text(text).map_err(|fault| (fault.number(), fault.place()))
    }

    #[test]
    fn bytes(rt: HostRuntime) {
        let texts: [(&[u8], Result<(), (u32, usize)>); 9] = [
            (b"", Ok(())),
            (b" \t\n\r", Ok(())),
            (b"(emit !~)", Ok(())),
            (b"a\x1f", Err((2, 1))),
            (b"ab\x7f", Err((2, 2))),
            (b"abc\x80", Err((2, 3))),
            (b"\0", Err((2, 0))),
            (b"abcd\xff", Err((2, 4))),
            (b"ab\x0bcd\x0c", Err((2, 2))),
        ];
        for (text, want) in texts {
            assert_eq!(rt; verdict(text), want);
        }
    }

    #[test]
    fn lengths(rt: HostRuntime) {
        let mut text = [b' '; 16385];
        assert_eq!(rt; verdict(&text[0..16384]), Ok(()));
        assert_eq!(rt; verdict(&text), Err((1, 16384)));
        text[0] = 0;
        assert_eq!(rt; verdict(&text), Err((1, 16384)), "a foreign byte too");
        assert_eq!(rt; verdict(&text[0..16384]), Err((2, 0)));
    }

    #[test]
    fn depths(rt: HostRuntime) {
        let mut text = [b'('; 60];
        assert_eq!(rt; verdict(&text[0..24]), Ok(()));
        assert_eq!(rt; verdict(&text[0..25]), Err((3, 24)));
        assert_eq!(rt; verdict(&text), Err((3, 24)), "the smallest place");
        text[59] = 127;
        assert_eq!(rt; verdict(&text), Err((2, 59)), "a foreign byte after it");
        text[10] = b')';
        assert_eq!(rt; verdict(&text[0..26]), Ok(()), "one is closed");
        assert_eq!(rt; verdict(&text[0..27]), Err((3, 26)));
    }

    // A closing bracket with none open closes nothing.
    #[test]
    fn unopened(rt: HostRuntime) {
        let mut text = [b'('; 28];
        text[0] = b')';
        text[1] = b')';
        text[2] = b')';
        assert_eq!(rt; verdict(&text[0..27]), Ok(()));
        assert_eq!(rt; verdict(&text), Err((3, 27)));
    }
}

#[cfg(test)]
mod token_tests {
    use std::test::Fail;
    use tokens::integer::is_integer;
    use tokens::token::Token::{Close, Integer, Open, Word};
    use tokens::token::{Token, tokens};

    #[test]
    fn tokens_and_places(rt: HostRuntime) -> Result<(), Fail> {
        let texts: [(&'static [u8], &'static [Token<'static>]); 13] = [
            (b"", &[]),
            (b" \t\n\r", &[]),
            (b"(", &[Open { at: 0 }]),
            (b"()", &[Open { at: 0 }, Close { at: 1 }]),
            (
                b"))((",
                &[
                    Close { at: 0 },
                    Close { at: 1 },
                    Open { at: 2 },
                    Open { at: 3 },
                ],
            ),
            (b"a", &[Word { at: 0, text: b"a" }]),
            (
                b"a b",
                &[Word { at: 0, text: b"a" }, Word { at: 2, text: b"b" }],
            ),
            (
                b"(task 0)",
                &[
                    Open { at: 0 },
                    Word {
                        at: 1,
                        text: b"task",
                    },
                    Integer { at: 6, text: b"0" },
                    Close { at: 7 },
                ],
            ),
            (
                b"x(y)z",
                &[
                    Word { at: 0, text: b"x" },
                    Open { at: 1 },
                    Word { at: 2, text: b"y" },
                    Close { at: 3 },
                    Word { at: 4, text: b"z" },
                ],
            ),
            (
                b"12(-3)",
                &[
                    Integer { at: 0, text: b"12" },
                    Open { at: 2 },
                    Integer { at: 3, text: b"-3" },
                    Close { at: 5 },
                ],
            ),
            (
                b"a b\tc\nd\re",
                &[
                    Word { at: 0, text: b"a" },
                    Word { at: 2, text: b"b" },
                    Word { at: 4, text: b"c" },
                    Word { at: 6, text: b"d" },
                    Word { at: 8, text: b"e" },
                ],
            ),
            (
                b"\n\na  b\t\t7\r\r",
                &[
                    Word { at: 2, text: b"a" },
                    Word { at: 5, text: b"b" },
                    Integer { at: 8, text: b"7" },
                ],
            ),
            (
                b"[\xff\0] 1\xff",
                &[
                    Word {
                        at: 0,
                        text: b"[\xff\0]",
                    },
                    Word {
                        at: 5,
                        text: b"1\xff",
                    },
                ],
            ),
        ];
        for (text, want) in texts {
            assert_eq!(rt; tokens(rt.alloc(), text)?.as_slice(), want);
        }
        Ok(())
    }

    #[test]
    fn places_and_bytes(rt: HostRuntime) {
        let parts: [(Token, usize, &[u8]); 4] = [
            (Open { at: 2 }, 2, b""),
            (Close { at: 5 }, 5, b""),
            (Integer { at: 3, text: b"-3" }, 3, b"-3"),
            (
                Word {
                    at: 1,
                    text: b"task",
                },
                1,
                b"task",
            ),
        ];
        for (token, place, bytes) in parts {
            assert_eq!(rt; token.place(), place);
            assert_eq!(rt; token.bytes(), bytes);
        }
    }

    #[test]
    fn integers_and_words(rt: HostRuntime) -> Result<(), Fail> {
        let runs: [(&[u8], bool); 16] = [
            (b"0", true),
            (b"9", true),
            (b"10", true),
            (b"-10", true),
            (b"-", false),
            (b"-0", false),
            (b"00", false),
            (b"01", false),
            (b"-01", false),
            (b"--1", false),
            (b"+1", false),
            (b"1a", false),
            (b"1-", false),
            (b"1/", false),
            (b"1:", false),
            (b"\xff", false),
        ];
        for (run, want) in runs {
            assert_eq!(rt; is_integer(run), want);
            let token = if want {
                Integer { at: 0, text: run }
            } else {
                Word { at: 0, text: run }
            };
            assert_eq!(rt; tokens(rt.alloc(), run)?.as_slice(), [token].as_slice());
        }
        assert!(rt; !is_integer(b""));
        Ok(())
    }

    #[test]
    fn many_digits(rt: HostRuntime) -> Result<(), Fail> {
        let mut run = vec![in rt.alloc(); b'9'; 3000]?;
        assert!(rt; is_integer(&run));
        assert_eq!(rt;
            tokens(rt.alloc(), &run)?.as_slice(),
            [Integer { at: 0, text: &run }].as_slice()
        );
        assert!(rt; run.len() == 3000);
        run[0] = b'-';
        assert!(rt; is_integer(&run), "a minus first");
        run[1] = b'0';
        assert!(rt; !is_integer(&run), "then a 0");
        run[1] = b'1';
        run.push(b'a')?;
        assert!(rt; !is_integer(&run), "no digit last");
        Ok(())
    }
}
