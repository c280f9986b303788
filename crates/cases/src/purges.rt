// The purge button (Ask 5): what w cancels, whom d and n block, the letter a, header byte 3, and the answers' order.

// Columns: what it shows, the script, what should come of it.
pub(crate) const PURGES: &str = "\
w: all that is open, reason U             s O500 e100 w                         Canceled 400, A dead 100-100-0=0, B free
w: self-matched shares stay gone          s O500 e100 q50 w                     Canceled 350, A dead 150-100-50=0, B free
w in that symbol                          s O500 w1                             Canceled 500, A dead 0-0-0=0, B free
w in another symbol: ignored              s O500 w2                             answer 1, nothing changed
w: the first of two                       s O500 B O300 w                       Canceled 500, A dead 0-0-0=0, B live 300-0-0=300 for 99999
w twice: the second of two                s O500 B O300 w w                     Canceled 300, A dead 0-0-0=0 intact, B dead 0-0-0=0
w three times: ignored                    s O500 B O300 w w w                   answer 1, nothing changed
w passes over a dead order                s O500 X0 B O300 w                    Canceled 300, A dead 0-0-0=0 intact, B dead 0-0-0=0
w passes over a late order                s C O500 l B O300 w                   Canceled 300, A live 500-0-0=500 for 99999 intact, B dead 0-0-0=0
w, all late: ignored                      s C O500 l w                          answer 1, nothing changed
w once the cross is done                  s C O500 l f w                        Canceled 500, A dead 0-0-0=0, B free
w passes over another firm's order        F2 s O500 B W2 O300 w                 Canceled 300, A live 500-0-0=500 for 99999 intact, B dead 0-0-0=0
w before the day: ignored                 w                                     answer 1, nothing changed
w after the day                           s O500 E w                            Canceled 500, A dead 0-0-0=0, B free
w of a blocked firm                       s O500 d w                            Canceled 500, A dead 0-0-0=0, B free, byte 3 is 1
9: w, no room                             R80 s O500 k w                        answer 9, nothing changed
1 before 9: w, none left, no room         R80 s O500 k w2                       answer 1, nothing changed
15: w, firm not listed                    s O500 W9 w                           answer 15, nothing changed
15 before 1: w, firm not listed           s W9 w                                answer 15, nothing changed
4 before 15: w, too early                 s W9 @34199 w                         answer 4, nothing changed
3 before 15: w, stamp                     W9 ?1 w                               answer 3 at 1, nothing changed
2: w, a byte short                        <1 w                                  answer 2, nothing changed
w, then O of its token: used              s O500 w O500                         answer 1, nothing changed
d: its new orders are rejected            s d O500                              Rejected a, A rejected, B free, byte 3 is 1
a before S: blocked, stock                s d ?28 O500                          Rejected a, A rejected, B free, byte 3 is 1
L before a: another firm                  s d ?44 O500                          Rejected L, A rejected, B free, byte 3 is 1
C before a: day not open                  d O500                                Rejected C, A rejected, B free, byte 3 is 1
d: another firm's go on                   F2 s d W2 O500                        Accepted 500 at 10000 for 99999 by B, A live 500-0-0=500 for 99999, B free, byte 3 is 1
d of the second firm                      F2 s W2 d O500                        Rejected a, A rejected, B free, byte 3 is 2
d: replaces go on                         s O500 e100 d U500                    Replaced 400, A dead 100-100-0=0, B live 500-100-0=400 for 99999, byte 3 is 1
d: nothing else changes                   s O500 d                              nothing sent, A live 500-0-0=500 for 99999 intact, B free, byte 3 is 1
d twice                                   d d                                   nothing sent, A free, B free, byte 3 is 1
d of a firm listed twice: its first place F3 d                                  nothing sent, A free, B free, byte 3 is 1
n: let in again                           s d n O500                            Accepted 500 at 10000 for 99999 by ABCD, A live 500-0-0=500 for 99999, B free
n of one, the other stays                 F2 d W2 d n                           nothing sent, A free, B free, byte 3 is 1
n of what is not blocked                  n                                     nothing sent, A free, B free
d needs no room                           R80 s O500 k d                        nothing sent, A live 500-0-0=500 for 99999 intact, B free, byte 3 is 1, behind A
15: d, firm not listed                    s W9 d                                answer 15, nothing changed
15: n, firm not listed                    s W9 n                                answer 15, nothing changed
2: d, a byte short                        <1 d                                  answer 2, nothing changed
3: n, stamp                               ?1 n                                  answer 3 at 1, nothing changed
10: a bit past the firm count             b3 v2 s                               answer 10, nothing changed
a bit of a listed firm                    b3 v1 s O500                          Rejected a, A rejected, B free, byte 3 is 1
";
