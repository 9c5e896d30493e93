// The scope of the tokens that a reply returns: 46.
ghost use Rattle.std.specs.Prelude.{◌≡◌, ◌+◌, ◌<◌, ◌≤◌, [], ◌++◌, length, get_or};
ghost use Rattle.chain.specs.Lists.{is_among, all_in};
ghost use Rattle.scope.specs.Scope.{slot_of, Rises, each_once, in_scope};

// The place of the first that has the token; as many as there are where none has it.
pub fn slot_of(own: &[u64], token: u64) -> usize
    ensures { result ≡ slot_of own.now token }
{
    let slot = own.iter().position(|t| *t == token);
    slot.unwrap_or(own.len())
}

// Each token is greater than the one before it.
pub fn rises(own: &[u64]) -> bool
    ensures { Rises result own.now }
{
    own.is_sorted_by(|a, b| a < b)
}

// `slot_of`, trying index `near` first; correct as rising tokens are distinct.
pub fn slot_near(own: &[u64], rising: bool, near: usize, token: u64) -> usize
    requires { Rises rising own.now }
    ensures { result ≡ slot_of own.now token }
{
    if rising && own.get(near) == Some(&token) {
        return near;
    }
    slot_of(own, token)
}

// The k-th of the tokens that came back: the completed ones, then the aborted ones.
pub fn returned_at(tokens: &[u64], aborted: &[u64], k: usize) -> u64
    requires { k < length tokens.now + length aborted.now }
    ensures { result ≡ get_or (tokens.now ++ aborted.now) k 0 }
{
    let n = tokens.len();
    if k < n {
        return tokens[k];
    }
    aborted[k - n]
}

// Each token is one of `own` and none repeats; seen ones are marked.
fn each_once(own: &[u64], tokens: &[u64], aborted: &[u64]) -> bool
    requires { (length own.now ≤ 128) × (length tokens.now ≤ 128) × (length aborted.now ≤ 128) }
    ensures { result ≡ each_once own.now [] (tokens.now ++ aborted.now) }
{
    let n = tokens.len() + aborted.len();
    let rising = rises(own);
    let mut marks = [false; 128];
    for k in 0..n {
        let token = returned_at(tokens, aborted, k);
        let j = slot_near(own, rising, k, token);
        if j >= own.len() {
            return false;
        }
        if marks[j] {
            return false;
        }
        marks[j] = true;
    }
    true
}

fn came_back(tokens: &[u64], aborted: &[u64], token: u64) -> bool
    ensures { result ≡ is_among token (tokens.now ++ aborted.now) }
{
    tokens.contains(&token) || aborted.contains(&token)
}

// Every affected token came back.
fn all_in(own: &[u64], tokens: &[u64], aborted: &[u64]) -> bool
    ensures { result ≡ all_in own.now (tokens.now ++ aborted.now) }
{
    own.iter().all(|t| came_back(tokens, aborted, *t))
}

// Distinct, all expected, and, where the whole is asked for, all of them: as many as there are, since they are distinct, or each one.
pub fn in_scope(whole: bool, own: &[u64], tokens: &[u64], aborted: &[u64]) -> bool
    requires { length own.now ≤ 128 }
    ensures { result ≡ in_scope whole own.now (tokens.now ++ aborted.now) }
{
    let most = own.len();
    if tokens.len() > most {
        return false;
    }
    if aborted.len() > most {
        return false;
    }
    if !each_once(own, tokens, aborted) {
        return false;
    }
    if !whole {
        return true;
    }
    if tokens.len() + aborted.len() >= most {
        return true;
    }
    all_in(own, tokens, aborted)
}
