// What an intended size means after a self match (Ask 4): every side of it, that it limits what is executed, and that Replace and Modify count
// self-matched shares all the same. After 500 entered, 100 executed and 50 self-matched 350 are open.

// Columns: what it shows, the script, what should come of it.
pub(crate) const SIZES: &str = "\
X 0 after a self match                    s O500 e100 q50 X0                    Canceled 350, A dead 150-100-50=0, B free
X one below executed: dead                s O500 e100 q50 X99                   Canceled 350, A dead 150-100-50=0, B free
X at executed: dead                       s O500 e100 q50 X100                  Canceled 350, A dead 150-100-50=0, B free
X one above executed                      s O500 e100 q50 X101                  Canceled 349, A live 151-100-50=1 for 99999, B free
X at executed + self-matched              s O500 e100 q50 X150                  Canceled 300, A live 200-100-50=50 for 99999, B free
X one below executed + open               s O500 e100 q50 X449                  Canceled 1, A live 499-100-50=349 for 99999, B free
X at executed + open: ignored             s O500 e100 q50 X450                  answer 1, nothing changed
X one below liable: ignored               s O500 e100 q50 X499                  answer 1, nothing changed
X executed + self-matched + open: ignored s O500 e100 q50 X500                  answer 1, nothing changed
X, nothing executed: one below open       s O500 q50 X449                       Canceled 1, A live 499-0-50=449 for 99999, B free
X, nothing executed: at open              s O500 q50 X450                       answer 1, nothing changed
X 300 twice: ignored                      s O500 e100 q50 X300 X300             answer 1, nothing changed
X 300, then 200 executed: 300 in all      s O500 e100 q50 X300 e200             Executed 200, A dead 350-300-50=0, B free
X 300, then 201 executed: too many        s O500 e100 q50 X300 e201             answer 6, nothing changed
X 300 of a replacement                    s O500 e100 q50 U500 B X300           Canceled 150, A dead 150-100-50=0 intact, B live 350-100-50=200 for 99999
X late, at executed + open: ignored       s C O500 e100 q50 l X450              answer 1, nothing changed
X late, one below executed + open         s C O500 e100 q50 l X449              Cancel Reject, A live 500-100-50=350 for 99999, B free
X late, at executed: not all of it        s C O500 e100 q50 l X100              Cancel Reject, A live 500-100-50=350 for 99999, B free
X late, 0                                 s C O500 e100 q50 l X0                Cancel Pending, A live 500-100-50=350 for 99999, B free
X late, 0, then at executed + open        s C O500 e100 q50 l X0 X450           answer 1, nothing changed
U 300 counts self-matched shares          s O500 e100 q50 U300                  Replaced 150, A dead 150-100-50=0, B live 300-100-50=150 for 99999
U 150 counts them: bad details            s O500 e100 q50 U150                  Canceled 350, A dead 150-100-50=0, B free
M 300 counts them                         s O500 e100 q50 M300                  Modified 150, A live 300-100-50=150 for 99999, B free
M 150 counts them: ignored                s O500 e100 q50 M150                  answer 1, nothing changed
";
