// How many orders are live and how much is open of them (Ask 6): after every kind of entry that changes it, what a table answers whose bits, sum or
// byte 2 are not right, and that the status call judges byte 2 alone. The bits of two records are byte 224; 500 is 1 and 244 in bytes 62 and 63.

// Columns: what it shows, the script, what should come of it.
pub(crate) const TALLIES: &str = "\
nothing entered                           s #                                   System Event S, A free, B free, in all 0 live, 0 open
accepted                                  s O500 #                              Accepted 500 at 10000 for 99999 by ABCD, A live 500-0-0=500 for 99999, B free, in all 1 live, 500 open
two accepted                              s O500 B O300 #                       Accepted 300 at 10000 for 99999 by ABCD, A live 500-0-0=500 for 99999 intact, B live 300-0-0=300 for 99999, in all 2 live, 800 open
executed in part                          s O500 e100 #                         Executed 100, A live 500-100-0=400 for 99999, B free, in all 1 live, 400 open
executed whole                            s O500 e500 #                         Executed 500, A dead 500-500-0=0, B free, in all 0 live, 0 open
executed whole, the second of two         s O500 B O300 e300 #                  Executed 300, A live 500-0-0=500 for 99999 intact, B dead 300-300-0=0, in all 1 live, 500 open
canceled by the book in part              s O500 c100 #                         Canceled 100, A live 400-0-0=400 for 99999, B free, in all 1 live, 400 open
canceled by the book whole                s O500 c500 #                         Canceled 500, A dead 0-0-0=0, B free, in all 0 live, 0 open
Cancel 300                                s O500 e100 X300 #                    Canceled 200, A live 300-100-0=200 for 99999, B free, in all 1 live, 200 open
Cancel 0, the first of two                s O500 B O300 A X0 #                  Canceled 500, A dead 0-0-0=0, B live 300-0-0=300 for 99999, in all 1 live, 300 open
self-matched in part                      s O500 e100 q50 #                     type D, A live 500-100-50=350 for 99999, B free, in all 1 live, 350 open
self-matched whole                        s O500 q500 #                         type D, A dead 500-0-500=0, B free, in all 0 live, 0 open
Modify 300                                s O500 e100 M300 #                    Modified 200, A live 300-100-0=200 for 99999, B free, in all 1 live, 200 open
Replace 600                               s O500 e100 U600 #                    Replaced 500, A dead 100-100-0=0, B live 600-100-0=500 for 99999, in all 1 live, 500 open
Replace with bad details                  s O500 e100 U100 #                    Canceled 400, A dead 100-100-0=0, B free, in all 0 live, 0 open
rejected                                  s O0 #                                Rejected Z, A rejected, B free, in all 0 live, 0 open
Replace rejected                          s O500 e100 h U500 #                  Rejected H, A live 500-100-0=400 for 99999 intact, B rejected, ABC halted, in all 1 live, 400 open
purged, the first of two                  s O500 B O300 w #                     Canceled 500, A dead 0-0-0=0, B live 300-0-0=300 for 99999, in all 1 live, 300 open
purged, both                              s O500 B O300 w w #                   Canceled 300, A dead 0-0-0=0 intact, B dead 0-0-0=0, in all 0 live, 0 open
late: live all the same                   s C O500 l #                          nothing sent, A live 500-0-0=500 for 99999, B free, in all 1 live, 500 open
the day over: live all the same           s O500 E #                            System Event E, A live 500-0-0=500 for 99999 intact, B free, in all 1 live, 500 open
10: bit left set, order dead              s O500 X0 b224 v1 E                   answer 10, nothing changed
10: bit not set, order live               s O500 b224 v0 E                      answer 10, nothing changed
10: bit set of a rejected token           s O0 b224 v1 E                        answer 10, nothing changed
10: bit set of an unused record           s O500 b224 v3 E                      answer 10, nothing changed
10: bits from the highest on              s O500 b224 v128 E                    answer 10, nothing changed
10: a spare bit set, the first            s O500 b224 v5 E                      answer 10, nothing changed
10: a spare bit set, the last             b224 v128 s                           answer 10, nothing changed
10: sum not lowered, 100 executed         s O500 e100 b63 v244 E                answer 10, nothing changed
10: sum not lowered, order dead           s O500 X0 b62 v1 b63 v244 E           answer 10, nothing changed
10: sum one too high                      s O500 b63 v245 E                     answer 10, nothing changed
10: sum one too low                       s O500 b63 v243 E                     answer 10, nothing changed
10: byte 2 zero                           b2 v0 s                               answer 10, nothing changed
10: byte 2 two                            b2 v2 s                               answer 10, nothing changed
10 before 11: byte 2 zero, ring of 79     b2 v0 R79 s                           answer 10, nothing changed
status: judges no bit                     s O500 b224 v0 #                      Accepted 500 at 10000 for 99999 by ABCD, A live 500-0-0=500 for 99999, B free, in all 0 live, 500 open
status: judges no sum                     s O500 b63 v245 #                     Accepted 500 at 10000 for 99999 by ABCD, A live 500-0-0=500 for 99999, B free, in all 1 live, 501 open
status: byte 2 zero                       s O500 b2 v0 #                        Accepted 500 at 10000 for 99999 by ABCD, A live 500-0-0=500 for 99999, B free, status 10
";
