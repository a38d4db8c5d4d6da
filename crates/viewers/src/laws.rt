//! What a viewer without the secret of a desk's page is served. This function does nothing: it stands for the law it ensures.

ghost use Rattle.std.specs.Prelude.{◌≡◌, Bool, false};
ghost use Rattle.http1.specs.declared.server.Server.{Server};
ghost use Rattle.viewers.specs.Replies.{SameOpenly, answer_text, number_for, told_text};
ghost use Rattle.viewers.specs.declared.asks.Ask.{Ask};
ghost use Rattle.viewers.specs.declared.page_texts.PageTexts.{PageTexts};

/// Whatever is encrypted, every answer is the same, and so is what an unsigned viewer is told, and when.
pub fn what_others_are_served()
    ensures answers { (s : Server) (ask : Ask) (head : Bool) (one other : PageTexts)
        → SameOpenly one other → answer_text s ask head other ≡ answer_text s ask head one }
    ensures told { (s : Server) (one other : PageTexts) → SameOpenly one other → told_text s false other ≡ told_text s false one }
    ensures news { (one other : PageTexts) → SameOpenly one other → number_for false other ≡ number_for false one }
{}
