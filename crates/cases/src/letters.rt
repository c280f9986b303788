// The order of the reject letters, pair by pair (What each entry does, O): an Enter with a fault and the one behind it, and then with the fault
// alone. A fault is a spoiled byte of its field.

// Columns: what it shows, the script, what should come of it.
pub(crate) const LETTERS: &str = "\
C before L: day not open, firm            ?44 O500                              Rejected C, A rejected, B free
C: day not open                           O500                                  Rejected C, A rejected, B free
L before S: firm, stock                   s ?44 ?28 O500                        Rejected L, A rejected, B free
L: firm                                   s ?44 O500                            Rejected L, A rejected, B free
S before R: stock, cross                  s ?28 ?55 O500                        Rejected S, A rejected, B free
S: stock                                  s ?28 O500                            Rejected S, A rejected, B free
R before D: cross, display                s ?55 ?48 O500                        Rejected R, A rejected, B free
R: cross                                  s ?55 O500                            Rejected R, A rejected, B free
D before X: display, price                s ?48 ?36 O500                        Rejected D, A rejected, B free
D: display                                s ?48 O500                            Rejected D, A rejected, B free
X before Z: price, shares                 s ?36 ?24 O500                        Rejected X, A rejected, B free
X: price                                  s ?36 O500                            Rejected X, A rejected, B free
Z before N: shares, minimum               s ?24 ?51 O500                        Rejected Z, A rejected, B free
Z: shares                                 s ?24 O500                            Rejected Z, A rejected, B free
N: minimum                                s ?51 O500                            Rejected N, A rejected, B free
";
