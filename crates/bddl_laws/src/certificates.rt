// Certificates.
ghost use Rattle.std.specs.Prelude.{ℕ, ◌≡◌, ◌≢◌, ◌<◌, ◌≤◌, ◌^◌, ◌⊎◌, List, [], ◌∷◌, ◌++◌, length, slice_get, AllPairs, Some, None, true};
ghost use Rattle.bddl_model.specs.declared.certificate.Node.{Node};
ghost use Rattle.bddl_model.specs.Certificate.{Place, start, place, node_fault, valid, IsShared};
ghost use Rattle.bddl_model.specs.CertificateGraph.{answers, Links, links, linked, preorder};
ghost use Rattle.bddl_model.specs.CertificateText.{CertText, ctext};
ghost use Rattle.bddl_model.specs.Limits.{IsGame};
ghost use Rattle.bddl_model.specs.Setup.{Setup};
ghost use Rattle.bddl_model.specs.Win.{win};
ghost use Rattle.bddl_laws.specs.BreadthFirst.{AreNumbered, AreMade};
ghost use Rattle.bddl_laws.specs.PlacedNodes.{ArePlaced};

/// A law: where a certificate is valid, Black can force its goal.
pub fn valid_certificates_win()
    ensures { (s : Setup) (nodes : List Node) → valid s nodes ≡ true → win s.game s.first s.board s.depth ≡ true }
{}

/// A law: nodes that are one tree in preorder have later next numbers, and all but the first are
/// named.
pub fn trees_are_linked()
    ensures { (ls : Links) → preorder ls ≡ true → linked ls ≡ true }
{}

/// A law: linked nodes are a valid certificate where each has a place that its namings lead to and at
/// which it is without fault, and these are the places of the nodes.
pub fn placed_nodes_are_valid()
    ensures valid { (s : Setup) (nodes : List Node) (at : ℕ → Place) → linked (links nodes) ≡ true → ArePlaced s nodes at → valid s nodes ≡ true }
    ensures places { (s : Setup) (nodes : List Node) (at : ℕ → Place) → linked (links nodes) ≡ true → ArePlaced s nodes at
        → (m : ℕ) → m < length nodes → place s (links nodes) m ≡ at m }
{}

/// A law: nodes may be made breadth first, from the start on, each of the first place that has none. Once
/// each place has its node, and none was met twice, they are a certificate that shares its nodes.
pub fn nodes_may_be_made_breadth_first()
    ensures begins { (s : Setup) → AreMade s (start s ∷ []) [] }
    ensures goes_on { (s : Setup) (places new : List Place) (nodes : List Node) (p : Place) (node : Node) → AreMade s places nodes → slice_get places (length nodes) ≡ Some p
        → ((n : ℕ) → node_fault s.game n p node ≡ None) → (1 ≤ p.left) ⊎ (answers node ≡ []) → AreNumbered s.game p (answers node) places new → AreMade s new (nodes ++ node ∷ []) }
    ensures places { (s : Setup) (places : List Place) (nodes : List Node) → AreMade s places nodes → length nodes ≡ length places
        → (m : ℕ) (p : Place) → slice_get places m ≡ Some p → place s (links nodes) m ≡ p }
    ensures shared { (s : Setup) (places : List Place) (nodes : List Node) → AreMade s places nodes → length nodes ≡ length places → AllPairs (λ p q. p ≢ q) places → IsShared s nodes }
{}

/// A law: a valid certificate of a game within the limits can be written, and its text is one of it.
pub fn valid_certificates_have_a_text()
    ensures { (s : Setup) (nodes : List Node) → IsGame s.game → valid s nodes ≡ true → length nodes < 2 ^ 64 → CertText (ctext nodes) nodes }
{}
