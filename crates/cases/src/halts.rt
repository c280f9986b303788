// The list of stocks and its halts (Ask 2): the letters of O and U, what goes on, the new entry, and the answers' order.

// Columns: what it shows, the script, what should come of it.
pub(crate) const HALTS: &str = "\
S: ABC not listed                         s L O500                              Rejected S, A rejected, B free
H: ABC halted                             s h O500                              Rejected H, A rejected, B free, ABC halted
S before H: stock, ABC halted             s h ?28 O500                          Rejected S, A rejected, B free, ABC halted
H before R: ABC halted, cross             s h ?55 O500                          Rejected H, A rejected, B free, ABC halted
ABC trades again                          s h y O500                            Accepted 500 at 10000 for 99999 by ABCD, A live 500-0-0=500 for 99999, B free
U, ABC halted: its token is used up       s O500 e100 h U500                    Rejected H, A live 500-100-0=400 for 99999 intact, B rejected, ABC halted
U late before halted                      s C O500 e100 l h U500                Rejected R, A live 500-100-0=400 for 99999 intact, B rejected, ABC halted
U halted before bad details               s O500 e100 h U100                    Rejected H, A live 500-100-0=400 for 99999 intact, B rejected, ABC halted
U, ABC not listed: not halted             s O500 e100 L U500                    Replaced 400, A dead 100-100-0=0, B live 500-100-0=400 for 99999
X goes on, ABC halted                     s O500 e100 h X300                    Canceled 200, A live 300-100-0=200 for 99999, B free, ABC halted
e goes on, ABC halted                     s O500 h e100                         Executed 100, A live 500-100-0=400 for 99999, B free, ABC halted
h before the day                          h                                     nothing sent, A free, B free, ABC halted
h after the day                           s O500 E h                            nothing sent, A live 500-0-0=500 for 99999 intact, B free, ABC halted
h of the state that is there              h h                                   nothing sent, A free, B free, ABC halted
h needs no room                           R80 s O500 k h                        nothing sent, A live 500-0-0=500 for 99999 intact, B free, ABC halted, behind A
5: h, ABC not listed                      L h                                   answer 5, nothing changed
4 before 5: too early, ABC not listed     s L @34199 h                          answer 4, nothing changed
3 before 5: state, ABC not listed         L ?17 h                               answer 3 at 17, nothing changed
h: stamp                                  ?1 h                                  answer 3 at 1, nothing changed
h: stamp and state: the stamp             ?17 ?1 h                              answer 3 at 1, nothing changed
2: h, a byte short                        <1 h                                  answer 2, nothing changed
10 before 14: table, list                 b0 v9 J s                             answer 10, nothing changed
11 before 14: ring of 79, list            R79 J s                               answer 11, nothing changed
14 before 2: list, kind unknown           J Z                                   answer 14, nothing changed
14: list                                  J s                                   answer 14, nothing changed
";
