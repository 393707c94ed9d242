// How a request is answered.

ghost use Rattle.std.specs.Prelude.{◌≡◌, ◌≤◌, ◌&&◌, nat_le, reverse, true, Some, IfOk};
ghost use Rattle.std.specs.Option.{option_copied};
ghost use Rattle.sso_base.specs.Legal.{last_moment};
ghost use Rattle.sso_base.specs.Weights.{told_weight, most_held};
ghost use Rattle.held_rows.specs.Held.{AnyRow, IsHeld};
ghost use Rattle.end_request.specs.Ending.{end_read};
ghost use Rattle.signout_answer.specs.declared.parts.Doing.TheVariants as does;
ghost use Rattle.signout_answer.specs.Questions.{question_name, question_begun};
ghost use Rattle.signout_answer.specs.Answering as spec;
ghost use Rattle.rp_signout.specs.Keeps as keeping;

use crate::decision::{Answer, Decision, Verdict};
use crate::signout_core::SignoutCore;
use crate::table::{has_room, living_question};
use core_stack::Provides;
use end_request::{EndWish, location, read_end};
use held_rows::Held;
use op_exchange::OpAsk;
use signout_answer::{EndAsk, EndSetup, OwnReply, QuestionRow};
use sso_base::{Entry, MOST_HELD, Moment, NoMemory, Word, text_bytes};
use std::alloc::Global;

// ---- words

fn is_same_word(v: &Option<Word>, w: &Option<Word>) -> bool
    ensures { result ≡ spec.is_same_word v.now w.now }
{
    match (v, w) {
        (None, None) => true,
        (Some(v), Some(w)) => *v == *w,
        _ => false,
    }
}

// Whether this is a sign-out with this session.
fn is_sign_out(session: &Option<Word>, ask: Option<&OpAsk>) -> bool
    ensures { result ≡ spec.is_sign_out session.now (option_copied ask.entry) }
{
    match ask {
        Some(OpAsk::SignOut { session: presented }) => is_same_word(presented, session),
        _ => false,
    }
}

// ---- a request to end a session

// The bytes of the texts that a question holds because of a request.
fn wish_held(wish: &EndWish) -> u64
    ensures { result ≡ told_weight (spec.wish_held wish.now) }
{
    text_bytes(&wish.back).saturating_add(text_bytes(&wish.state))
}

// Whether these are few.
fn is_little(wish: &EndWish) -> bool
    ensures { result ≡ nat_le (spec.wish_held wish.now) most_held }
{
    wish_held(wish) <= MOST_HELD
}

// Whether the server may keep the texts of a request. One whose history lasts keeps little of one request.
fn is_small(setup: &EndSetup, wish: &EndWish) -> bool
    ensures { result ≡ spec.is_small setup.now wish.now }
{
    !setup.registry.lasting() || is_little(wish)
}

// ---- the answer to a question

// Whether an answer with this session is one to the question.
fn is_answered(session: &Option<Word>, signs: bool, question: &QuestionRow) -> bool
    ensures { result ≡ signs && spec.is_same_word question.now.session session.now }
{
    signs && is_same_word(&question.session, session)
}

// How an answer to this question is answered.
fn confirmed(alloc: Global, question: &QuestionRow, agree: bool) -> Result<Verdict, NoMemory>
    ensures { IfOk result (λ d. keeping.confirmed_doing d ≡ spec.confirm_doing (Some question.now) agree) }
{
    if agree {
        Ok(Verdict::Go(location(alloc, &question.wish)?))
    } else {
        Ok(Verdict::Own(OwnReply::Kept))
    }
}

// How an answer with the word is answered, among these questions.
fn confirmed_in(
    alloc: Global,
    questions: &Held<QuestionRow>,
    at: Moment,
    word: Word,
    agree: bool,
    session: &Option<Word>,
    signs: bool,
) -> Result<Verdict, NoMemory>
    ensures doing { IfOk result (λ d. keeping.confirmed_doing d
        ≡ spec.confirm_doing (spec.question_in questions.now.rows at (Some word) session.now signs) agree) }
    ensures held { IsHeld question_name question_begun AnyRow questions.now.rows }
{
    match living_question(questions, word, at) {
        Some(question) if is_answered(session, signs, question) => {
            confirmed(alloc, question, agree)
        }
        _ => Ok(Verdict::Own(OwnReply::Stale)),
    }
}

impl<P: Provides> SignoutCore<P> {
    // Whether there is room for a question with this word.
    fn has_room(&self, at: Moment, word: Word) -> bool
        requires { last_moment (reverse self.now.history) ≤ at }
        ensures { result ≡ spec.has_room self.now.setup (reverse self.now.history) at word }
    {
        has_room(&self.questions, at, word)
    }

    // The reply to a request to end a session, and the question that it makes. `word` is that of a question.
    fn start(
        &self,
        alloc: Global,
        at: Moment,
        word: Word,
        form: &[u8],
        session: Option<Word>,
    ) -> Result<Answer, NoMemory>
        requires { last_moment (reverse self.now.history) ≤ at }
        ensures own { IfOk result (λ a. spec.start_doing self.now.setup (spec.has_room self.now.setup (reverse self.now.history) at word) word
            (end_read self.now.setup.registry self.now.setup.returns form.now) ≡ does.Own a.own) }
        ensures made { IfOk result (λ a. a.made ≡ keeping.started_made session at
            (end_read self.now.setup.registry self.now.setup.returns form.now) a.own) }
    {
        let room = self.has_room(at, word);
        let read = read_end(alloc, &self.setup.registry, &self.setup.returns, form)?;
        match read {
            Err(why) => Ok(Answer {
                own: OwnReply::Wrong(why),
                made: None,
            }),
            Ok(wish) => {
                if !room || !is_small(&self.setup, &wish) {
                    return Ok(Answer {
                        own: OwnReply::Full,
                        made: None,
                    });
                }
                Ok(Answer {
                    own: OwnReply::Sure(word),
                    made: Some(QuestionRow {
                        word,
                        session,
                        wish,
                        begun: at,
                    }),
                })
            }
        }
    }

    // How the answer to a question is answered.
    fn confirm(
        &self,
        alloc: Global,
        at: Moment,
        word: Option<Word>,
        agree: bool,
        session: &Option<Word>,
        inner: &P::Ask,
    ) -> Result<Verdict, NoMemory>
        requires { last_moment (reverse self.now.history) ≤ at }
        ensures { IfOk result (λ d. keeping.confirmed_doing d ≡ spec.confirm_doing
            (spec.asked_question self.now.setup P.plain_ask (reverse self.now.history) at word session.now inner.now) agree) }
    {
        let Some(word) = word else {
            return Ok(Verdict::Own(OwnReply::Stale));
        };
        let signs = is_sign_out(session, P::plain(inner));
        confirmed_in(alloc, &self.questions, at, word, agree, session, signs)
    }

    /// The decision about an entry.
    pub(crate) fn decide(
        &self,
        alloc: Global,
        entry: &Entry<EndAsk<P::Ask>>,
    ) -> Result<Decision, NoMemory>
        requires { last_moment (reverse self.now.history) ≤ entry.now.at }
        ensures done { IfOk result (λ d. spec.doing self.now.setup P.plain_ask (reverse self.now.history) entry.now.at entry.now.fresh entry.now.ask
            ≡ keeping.done_by d entry.now.ask) }
        ensures made { IfOk result (λ d. keeping.made_in d ≡ keeping.made_by self.now.setup entry.now d) }
        ensures passable { IfOk result (λ d. keeping.may_pass d entry.now.ask ≡ true) }
    {
        match &entry.ask {
            EndAsk::Through(_) => Ok(Decision::Pass(None)),
            EndAsk::Start { form, session } => {
                let word = entry.fresh[0];
                let answer = self.start(alloc, entry.at, word, form.as_bytes(), *session)?;
                Ok(Decision::Own(answer))
            }
            EndAsk::Confirm {
                word,
                agree,
                session,
                inner,
            } => match self.confirm(alloc, entry.at, *word, *agree, session, inner)? {
                Verdict::Own(own) => Ok(Decision::Own(Answer { own, made: None })),
                Verdict::Go(back) => Ok(Decision::Pass(back)),
            },
        }
    }
}
