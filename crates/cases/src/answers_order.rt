// The order of the answers (Answer numbers, in order of checking): an entry to which two of them apply, and then one to which the second does.
//
// 1 is given to what clients send and 5 to what the engine tells; 6 is given to kinds that need neither record nor reference, which 8 is about.
// No entry has both, so there the next neighbours stand: 4 before 5, 1 before 8, 7 before 8, 6 before 9.

// Columns: what it shows, the script, what should come of it.
pub(crate) const ANSWERS: &str = "\
10 before 11: table, ring of 79           b0 v9 R79 s                           answer 10, nothing changed
11: ring of 79                            R79 s                                 answer 11, nothing changed
11 before 2: ring of 79, kind unknown     R79 Z                                 answer 11, nothing changed
2: kind unknown                           Z                                     answer 2, nothing changed
2 before 3: a byte short, bad token       s ! <1 O500                           answer 2, nothing changed
3: bad token                              s ! O500                              answer 3 at 9, nothing changed
3 before 4: bad token, too early          s ! @34199 O500                       answer 3 at 9, nothing changed
4: too early                              s @34199 O500                         answer 4, nothing changed
4 before 1: too early, token used         s O500 @34199 O500                    answer 4, nothing changed
1: token used                             s O500 O500                           answer 1, nothing changed
4 before 5: too early, not live           s @34199 e100                         answer 4, nothing changed
5: not live                               s e100                                answer 5, nothing changed
5 before 7: not live, day not open        e100                                  answer 5, nothing changed
7: day not open                           s O500 E e100                         answer 7, nothing changed
7 before 6: day not open, shares 0        s O500 E e0                           answer 7, nothing changed
6: shares 0                               s O500 e0                             answer 6, nothing changed
1 before 8: token used, table full        s O500 B O500 O500                    answer 1, nothing changed
8: table full                             s O500 B O500 D O500                  answer 8, nothing changed
7 before 8: day not open, last reference  s O500 N E p10000                     answer 7, nothing changed
8: last reference                         s O500 N p10000                       answer 8, nothing changed
6 before 9: shares 0, ring full           R80 s O500 k e0                       answer 6, nothing changed
8 before 9: table full, ring full         R80 s O500 B O500 k D O500            answer 8, nothing changed
9: ring full                              R80 s O500 k e100                     answer 9, nothing changed
0: room again                             R80 s O500 k e100 g e100              Executed 100, A live 500-100-0=400 for 99999, B free
";
